// The chunks of a block. Each is moved, then mixed, and then its sounds have played it.
ghost use Rattle.std.specs.Prelude.{◌≡◌, ◌*◌, ◌≤◌, ◌<◌, length};
ghost use Rattle.limits.specs.Limits.{chunk_frames_most, block_frames_most};
ghost use Rattle.gain_table.specs.GainTable.{IsGainTable};
ghost use Rattle.clock.specs.WhenToStart.{CanMoveAll};
ghost use Rattle.accepted.specs.SceneOk.{SceneOk};
ghost use Rattle.chunk.specs.Chunk.{parts_of};
ghost use Rattle.mixer.specs.Sounds.{sounds_played};
ghost use Rattle.mixer.specs.Mixes.{MixerMixes};
ghost use Rattle.mixer_chunk.specs.ChunkOf.{chunk_of};
ghost use Rattle.mixer_chunk.specs.Follows.{Kept, Follows};
ghost use Rattle.renderer.specs.Renderer.{chunk_count, chunk_frames, in_chunk, chunk_done, chunks_done, chunk_samples, block_samples};
ghost use Rattle.chunk_render.specs.Block.{LinksOfScene, PartsOf, CanMix, CanRender, CanPlay, mixed_samples, seconds, still_head, still_samples};

use chunk::Chunk;
use gain_table::GainTable;
use level_amplitudes::Parts;
use limits::{CHUNK_FRAMES, ROUTE_LINES};
use mixer::Mixer;
use mixer_chunk::RouteGain;
use recordings::Recordings;
use scene::{Head, Scene};
use send_track::SEND_PLACES;
use track_sounds::ChunkLinks;

// The parts of a block's full chunks and of its last one.
#[derive(Drop)]
pub struct BlockParts {
    pub full: Parts,
    pub last: Parts,
}

// Room to mix a chunk in: what it held does not matter to what is heard. The gains spare the routes that rest their work.
#[derive(Drop)]
pub struct MixRoom {
    pub sends: [f32; SEND_PLACES],
    pub mix: [f32; 2 * CHUNK_FRAMES],
    pub gains: [RouteGain; ROUTE_LINES],
}

// A chunk that is laid is mixed, its samples go out, and its sounds have played it.
fn mix_chunk(
    mixer: &mut Mixer,
    chunk: &Chunk,
    scene: &Scene,
    links: &ChunkLinks,
    parts: &Parts,
    frames: usize,
    table: &GainTable,
    heard: &Recordings<'_>,
    room: &mut MixRoom,
    out: &mut [f32],
)
    requires gain_table { IsGainTable table.now }
    requires scene_ok { SceneOk scene.now }
    requires can_mix { CanMix scene.now heard.now mixer.old }
    requires chunk_laid { chunk.now ≡ chunk_of scene.now frames mixer.old }
    requires links_of_the_scene { LinksOfScene scene.now links.now }
    requires frames_in_a_chunk { frames ≤ chunk_frames_most }
    requires parts_of_the_chunk { parts.now ≡ parts_of frames }
    requires out_sized { length out.old ≡ frames * scene.now.head.channels }
    ensures state { mixer.new ≡ sounds_played scene.now frames mixer.old }
    ensures samples { out.new ≡ mixed_samples scene.now.head.channels frames (chunk_of scene.now frames mixer.old) heard.now }
{
    track::process_flat(
        chunk,
        links,
        parts,
        table,
        heard,
        &mut room.sends,
        &mut room.mix,
    );
    renderer::write_frames(out, scene.head.channels, &room.mix, frames);
    sound_advance::advance(mixer, scene, frames);
}

// The parts of chunk k.
#[tactic(auto, using(crate::proofs::laws::Turn::parts_last, crate::proofs::laws::Turn::parts_full))]
fn chunk_parts(parts: &BlockParts, head: Head, k: usize) -> &Parts
    requires head_ok { (1 ≤ head.buffer) × (head.buffer ≤ chunk_frames_most) × (head.block ≤ block_frames_most) }
    requires parts_of_the_block { PartsOf head parts.now }
    requires inside { k < chunk_count head }
    ensures { result.now ≡ parts_of (chunk_frames head k) }
{
    if k + 1 == renderer::chunk_count(head) {
        &parts.last
    } else {
        &parts.full
    }
}

// Lays chunk k of a block that moves: the first whole, and of the others the rows that can have changed since the one before.
fn put_chunk(
    chunk: &mut Chunk,
    scene: &Scene,
    mixer: &Mixer,
    k: usize,
    frames: usize,
    gains: &mut [RouteGain; ROUTE_LINES],
    table: &GainTable,
)
    requires gain_table { IsGainTable table.now }
    requires scene_ok { SceneOk scene.now }
    requires mixer_fits_scene { MixerMixes scene.now mixer.now }
    requires follows { 0 < k → Follows scene.now chunk.old mixer.now }
    ensures { chunk.new ≡ chunk_of scene.now frames mixer.now }
{
    if k == 0 {
        mixer_chunk::put_next_chunk(chunk, scene, mixer, frames, gains, table);
    } else {
        mixer_chunk::put_moved_chunk(chunk, scene, mixer, frames, gains, table);
    }
}

// Chunk k of a block that moves. It leaves the chunk as the next one asks for it.
fn process_chunk(
    mixer: &mut Mixer,
    chunk: &mut Chunk,
    scene: &Scene,
    k: usize,
    links: &ChunkLinks,
    parts: &BlockParts,
    table: &GainTable,
    heard: &Recordings<'_>,
    room: &mut MixRoom,
    out: &mut [f32],
)
    requires gain_table { IsGainTable table.now }
    requires scene_ok { SceneOk scene.now }
    requires inside { k < chunk_count scene.now.head }
    requires can_move { CanMoveAll mixer.old.clocks (seconds scene.now.head k) }
    requires can_mix { CanMix scene.now heard.now (in_chunk scene.now k mixer.old) }
    requires links_of_the_scene { LinksOfScene scene.now links.now }
    requires parts_of_the_block { PartsOf scene.now.head parts.now }
    requires out_sized { length out.old ≡ chunk_frames scene.now.head k * scene.now.head.channels }
    requires kept { 0 < k → Kept scene.now mixer.old chunk.old }
    ensures state { mixer.new ≡ chunk_done scene.now k mixer.old }
    ensures samples { out.new ≡ chunk_samples scene.now heard.now k (in_chunk scene.now k mixer.old) }
    ensures kept { Kept scene.now mixer.new chunk.new }
{
    let frames = renderer::chunk_frames(scene.head, k);
    moving_mixer::update(
        mixer,
        scene,
        renderer::chunk_seconds(scene.head.rate, frames),
    );
    put_chunk(chunk, scene, mixer, k, frames, &mut room.gains, table);
    mix_chunk(
        mixer,
        chunk,
        scene,
        links,
        chunk_parts(parts, scene.head, k),
        frames,
        table,
        heard,
        room,
        out,
    );
}

// The chunks of a block whose orders are read.
pub fn process_chunks(
    mixer: &mut Mixer,
    chunk: &mut Chunk,
    scene: &Scene,
    links: &ChunkLinks,
    parts: &BlockParts,
    table: &GainTable,
    heard: &Recordings<'_>,
    room: &mut MixRoom,
    out: &mut [f32],
)
    requires gain_table { IsGainTable table.now }
    requires scene_ok { SceneOk scene.now }
    requires can_render { CanRender scene.now heard.now mixer.old }
    requires links_of_the_scene { LinksOfScene scene.now links.now }
    requires parts_of_the_block { PartsOf scene.now.head parts.now }
    requires out_sized { length out.old ≡ scene.now.head.block * scene.now.head.channels }
    ensures state { mixer.new ≡ chunks_done scene.now (chunk_count scene.now.head) mixer.old }
    ensures samples { out.new ≡ block_samples scene.now heard.now mixer.old }
{
    let head = scene.head;
    for k in 0..renderer::chunk_count(head) {
        let frames = renderer::chunk_frames(head, k);
        let from = k * head.buffer * head.channels;
        let to = from + frames * head.channels;
        process_chunk(
            mixer,
            chunk,
            scene,
            k,
            links,
            parts,
            table,
            heard,
            room,
            &mut out[from..to],
        );
    }
}

// The head by which a block is cut where all is still: chunks as long as they can be.
#[tactic(auto, unfolding(crate::specs::Block::still_head))]
pub fn still_head(head: Head) -> Head
    ensures { result ≡ still_head head }
{
    Head {
        buffer: CHUNK_FRAMES,
        ..head
    }
}

// The chunks of a block of which nothing moves but the sounds, so that levels are laid once. `parts` are
// those of its longer chunks.
pub fn process_still_chunks(
    mixer: &mut Mixer,
    chunk: &mut Chunk,
    scene: &Scene,
    links: &ChunkLinks,
    parts: &BlockParts,
    table: &GainTable,
    heard: &Recordings<'_>,
    room: &mut MixRoom,
    out: &mut [f32],
)
    requires gain_table { IsGainTable table.now }
    requires scene_ok { SceneOk scene.now }
    requires can_play { CanPlay scene.now heard.now mixer.old }
    requires links_of_the_scene { LinksOfScene scene.now links.now }
    requires parts_of_the_block { PartsOf (still_head scene.now.head) parts.now }
    requires out_sized { length out.old ≡ scene.now.head.block * scene.now.head.channels }
    ensures state { mixer.new ≡ sounds_played scene.now scene.now.head.block mixer.old }
    ensures samples { out.new ≡ still_samples scene.now heard.now mixer.old }
{
    let head = still_head(scene.head);
    mixer_chunk::put_next_chunk(chunk, scene, mixer, head.buffer, &mut room.gains, table);
    for k in 0..renderer::chunk_count(head) {
        let frames = renderer::chunk_frames(head, k);
        let from = k * head.buffer * head.channels;
        let to = from + frames * head.channels;
        mixer_chunk::put_played(chunk, scene, mixer, frames);
        mix_chunk(
            mixer,
            chunk,
            scene,
            links,
            chunk_parts(parts, head, k),
            frames,
            table,
            heard,
            room,
            &mut out[from..to],
        );
    }
}
