// A scene's blocks, from the first to the last: each one's orders are read, and it is rendered.
ghost use Rattle.std.specs.Prelude.{◌≡◌, true, false, ◌*◌, ◌≤◌, ◌<◌, length};
ghost use Rattle.recordings.specs.Recordings.{recordings};
ghost use Rattle.limits.specs.Limits.{blocks_most};
ghost use Rattle.gain_table.specs.GainTable.{IsGainTable};
ghost use Rattle.accepted.specs.SceneOk.{SceneOk, SamplesOk};
ghost use Rattle.mixer.specs.Mixer.{mixer_new};
ghost use Rattle.mixer.specs.Orders.{mixer_ordered};
ghost use Rattle.order_links.specs.Links.{block_of, block_links, first_line};
ghost use Rattle.mixer_orders.specs.There.{OrdersThere};
ghost use Rattle.renderer.specs.Renderer.{rendered};
ghost use Rattle.chunk_render.specs.Block.{LinksOfScene, PartsOf, NanosAsk, still_head};
ghost use Rattle.block_render.specs.Still.{LengthOf};

use block_render::{BlockLength, ShowParts, render_block};
use chunk::Chunk;
use chunk_render::MixRoom;
use gain_table::GainTable;
use limits::{CHUNK_FRAMES, ROUTE_LINES};
use mixer::Mixer;
use mixer_chunk::RouteGain;
use order_links::{OrderLinks, first_line};
use scene::{Head, Scene};
use send_track::SEND_PLACES;
use track_sounds::ChunkLinks;

// Reads the orders of a block, and answers whether it has some.
#[tactic(auto, using(crate::proofs::laws::Orders::none_read))]
fn read_orders(mixer: &mut Mixer, scene: &Scene, links: &OrderLinks, block: usize) -> bool
    requires orders_there { OrdersThere scene.now }
    requires block_in_range { block < blocks_most }
    requires links_of_the_orders { links.now ≡ block_links (block_of scene.now.orders) scene.now.order_count }
    ensures state { mixer.new ≡ mixer_ordered scene.now block mixer.old }
    ensures none { result ≡ false → mixer.new ≡ mixer.old }
    ensures found { (result ≡ true → first_line links.now block < scene.now.order_count)
        × (result ≡ false → scene.now.order_count ≤ first_line links.now block) }
{
    if first_line(links, block) < scene.order_count {
        mixer_orders::on_start_processing(mixer, scene, links, block);
        return true;
    }
    false
}

fn block_length(head: Head) -> BlockLength
    requires { NanosAsk head }
    ensures { LengthOf head result }
{
    let nanos = chunk_render::block_nanos(head);
    let step = chunk_render::block_step(nanos.unwrap_or(0));
    BlockLength { nanos, step }
}

// Every block, from the scene's new mixer.
pub fn render_blocks<'a>(
    mixer: &mut Mixer,
    chunk: &mut Chunk,
    scene: &Scene,
    orders: &OrderLinks,
    links: &ChunkLinks,
    parts: &ShowParts,
    table: &GainTable,
    samples: &'a [f32],
    visitor: &'a [f32],
    output: &mut [f32],
)
    requires gain_table { IsGainTable table.now }
    requires scene_ok { SceneOk scene.now }
    requires samples_ok { SamplesOk scene.now (recordings samples.now visitor.now) }
    requires state_of_a_new_mixer { mixer.old ≡ mixer_new scene.now }
    requires links_of_the_orders { orders.now ≡ block_links (block_of scene.now.orders) scene.now.order_count }
    requires links_of_the_scene { LinksOfScene scene.now links.now }
    requires parts_of_the_chunks { PartsOf scene.now.head parts.now.own }
    requires parts_of_longer_chunks { PartsOf (still_head scene.now.head) parts.now.wide }
    requires output_sized { length output.old ≡ scene.now.head.block * scene.now.head.blocks * scene.now.head.channels }
    ensures { output.new ≡ rendered scene.now (recordings samples.now visitor.now) }
{
    let head = scene.head;
    let width = head.block * head.channels;
    let length = block_length(head);
    let mut room = MixRoom {
        sends: [0.0; SEND_PLACES],
        mix: [0.0; 2 * CHUNK_FRAMES],
        gains: [RouteGain::new(table); ROUTE_LINES],
    };
    for b in 0..head.blocks {
        let ordered = read_orders(mixer, scene, orders, b);
        let from = b * width;
        let to = from + width;
        render_block(
            mixer,
            chunk,
            scene,
            ordered,
            length,
            links,
            parts,
            table,
            samples,
            visitor,
            &mut room,
            &mut output[from..to],
        );
    }
}
