// Where a scene's render starts: its new mixer, and what is made once of it.
ghost use Rattle.std.specs.Prelude.{◌≡◌, ◌-◌, ◌*◌, ◌≤◌, length};
ghost use Rattle.recordings.specs.Recordings.{recordings};
ghost use Rattle.limits.specs.Limits.{chunk_frames_most, block_frames_most};
ghost use Rattle.accepted.specs.SceneOk.{SceneOk, SamplesOk};
ghost use Rattle.renderer.specs.Renderer.{chunk_count, chunk_frames, rendered};
ghost use Rattle.chunk_render.specs.Block.{PartsOf};

use block_render::ShowParts;
use chunk_render::{BlockParts, still_head};
use mixer::Mixer;
use order_links::links_by_block;
use scene::{Head, Scene};
use track_sounds::ChunkLinks;

// The frames of a block's last chunk.
fn last_frames(head: Head) -> usize
    requires { (1 ≤ head.buffer) × (head.buffer ≤ chunk_frames_most) × (1 ≤ head.block) × (head.block ≤ block_frames_most) }
    ensures { result ≡ chunk_frames head (chunk_count head - 1) }
{
    renderer::chunk_frames(head, renderer::chunk_count(head) - 1)
}

#[tactic(auto, using(crate::proofs::laws::Start::last_fits))]
fn block_parts(head: Head) -> BlockParts
    requires { (1 ≤ head.buffer) × (head.buffer ≤ chunk_frames_most) × (1 ≤ head.block) × (head.block ≤ block_frames_most) }
    ensures { PartsOf head result }
{
    BlockParts {
        full: chunk::parts_of(head.buffer),
        last: chunk::parts_of(last_frames(head)),
    }
}

// A chunk, its links and its parts are made once: which tracks, sounds and routes come under which track
// is the same in every chunk. Never inlined: what it keeps on the stack then isn't there while a scene is read.
#[inline(never)]
pub fn render_scene<'a>(scene: Scene, samples: &'a [f32], visitor: &'a [f32], output: &mut [f32])
    requires scene_ok { SceneOk scene }
    requires samples_ok { SamplesOk scene (recordings samples.now visitor.now) }
    requires output_sized { length output.old ≡ scene.head.block * scene.head.blocks * scene.head.channels }
    ensures { output.new ≡ rendered scene (recordings samples.now visitor.now) }
{
    let table = gain_table::gain_table();
    let parts = ShowParts {
        own: block_parts(scene.head),
        wide: block_parts(still_head(scene.head)),
    };
    let mut mixer = Mixer::new(scene);
    let mut chunk = mixer_chunk::chunk_of(&scene, &mixer, scene.head.buffer, &table);
    let links = ChunkLinks::new(&chunk);
    let orders = links_by_block(&scene.orders, scene.order_count);
    scene_blocks::render_blocks(
        &mut mixer, &mut chunk, &scene, &orders, &links, &parts, &table, samples, visitor, output,
    );
}
