// A block whose orders are read. Where nothing moves, or what waits does so through all of it, it is mixed as one that stands still.
ghost use Rattle.std.specs.Prelude.{◌≡◌, true, false, Some, ℕ, [], ◌*◌, ◌≤◌, length};
ghost use Rattle.recordings.specs.Recordings.{recordings};
ghost use Rattle.limits.specs.Limits.{clock_lines};
ghost use Rattle.gain_table.specs.GainTable.{IsGainTable};
ghost use Rattle.accepted.specs.SceneOk.{SceneOk, SamplesOk};
ghost use Rattle.rounding.specs.Duration.{nanos_from_secs};
ghost use Rattle.steady_mixer.specs.Steady.{ahead};
ghost use Rattle.steady_mixer.specs.MixerSteady.{LevelsIn, mixer_steady};
ghost use Rattle.renderer.specs.Renderer.{chunk_count, chunks_done, block_samples};
ghost use Rattle.chunk_render.specs.Block.{LinksOfScene, PartsOf, CanPlay, ClocksAsk, end_ticks, still_head, still_samples};
ghost use Rattle.block_render.specs.Still.{Waits, StandsStill, Rendering, LengthOf, still_done};

use chunk::Chunk;
use chunk_render::{
    BlockParts, MixRoom, block_clocks, clock_ticks, process_chunks, process_still_chunks,
};
use gain_table::GainTable;
use mixer::Mixer;
use recordings::Recordings;
use scene::Scene;
use steady_mixer::is_steady;
use track_sounds::ChunkLinks;

// A block's nanoseconds, if they are not too many, and so many as seconds.
#[derive(Clone, Copy)]
pub struct BlockLength {
    pub nanos: Option<u64>,
    pub step: f64,
}

// The parts of a scene's own chunks, and of the longer ones by which a block is cut that stands still.
#[derive(Drop)]
pub struct ShowParts {
    pub own: BlockParts,
    pub wide: BlockParts,
}

// Whether something waits in a block for longer than it lasts, and nothing moves.
fn waits_through(mixer: &Mixer, scene: &Scene, time: BlockLength) -> bool
    requires scene_ok { SceneOk scene.now }
    requires levels_in_range { LevelsIn scene.now mixer.now }
    requires length_of_the_block { LengthOf scene.now.head time }
    requires clocks_can_move { ClocksAsk scene.now.head mixer.now.clocks }
    requires clocks_fit { mixer.now.clocks.count ≤ clock_lines }
    ensures waits { result ≡ true → Waits scene.now time.step mixer.now }
    ensures found { (n : ℕ) → time.nanos ≡ Some n → nanos_from_secs time.step ≡ n
        → mixer_steady (ahead true n (end_ticks scene.now.head mixer.now.clocks)) scene.now mixer.now ≡ true → result ≡ true }
{
    let Some(nanos) = time.nanos else {
        return false;
    };
    if rounding::nanos_from_secs_f64(time.step) != nanos {
        return false;
    }
    let mut clocks = mixer.clocks;
    block_clocks(&mut clocks, scene.head);
    let ends = clock_ticks(&clocks);
    is_steady(mixer, scene, true, nanos, &ends[..mixer.clocks.count])
}

// Whether a block stands still. What waits through it has then waited for all of it.
fn stands_still(mixer: &mut Mixer, scene: &Scene, ordered: bool, time: BlockLength) -> bool
    requires scene_ok { SceneOk scene.now }
    requires rendering { Rendering ordered scene.now mixer.old }
    requires length_of_the_block { LengthOf scene.now.head time }
    ensures still { result ≡ true → StandsStill scene.now mixer.old mixer.new }
    ensures moving { result ≡ false → mixer.new ≡ mixer.old }
    ensures resting_found { mixer_steady (ahead false 0 []) scene.now mixer.old ≡ true → result ≡ true }
    ensures waiting_found { (n : ℕ) → ordered ≡ false → time.nanos ≡ Some n → nanos_from_secs time.step ≡ n
        → mixer_steady (ahead true n (end_ticks scene.now.head mixer.old.clocks)) scene.now mixer.old ≡ true → result ≡ true }
{
    if is_steady(mixer, scene, false, 0, &[]) {
        return true;
    }
    if ordered || !waits_through(mixer, scene, time) {
        return false;
    }
    moving_mixer::update_levels(mixer, scene, time.step);
    true
}

// A block of which nothing moves but the sounds. Its clocks move by the scene's own chunks.
#[tactic(auto, unfolding(crate::specs::Still::still_done, mixer::specs::Sounds::sounds_played))]
fn process_still(
    mixer: &mut Mixer,
    chunk: &mut Chunk,
    scene: &Scene,
    links: &ChunkLinks,
    parts: &BlockParts,
    table: &GainTable,
    heard: &Recordings<'_>,
    room: &mut MixRoom,
    out: &mut [f32],
)
    requires gain_table { IsGainTable table.now }
    requires scene_ok { SceneOk scene.now }
    requires can_play { CanPlay scene.now heard.now mixer.old }
    requires clocks_can_move { ClocksAsk scene.now.head mixer.old.clocks }
    requires links_of_the_scene { LinksOfScene scene.now links.now }
    requires parts_of_the_block { PartsOf (still_head scene.now.head) parts.now }
    requires out_sized { length out.old ≡ scene.now.head.block * scene.now.head.channels }
    ensures state { mixer.new ≡ still_done scene.now mixer.old }
    ensures samples { out.new ≡ still_samples scene.now heard.now mixer.old }
{
    process_still_chunks(mixer, chunk, scene, links, parts, table, heard, room, out);
    block_clocks(&mut mixer.clocks, scene.head);
}

// A block, its orders read; `ordered` says that it had some.
pub fn render_block<'a>(
    mixer: &mut Mixer,
    chunk: &mut Chunk,
    scene: &Scene,
    ordered: bool,
    time: BlockLength,
    links: &ChunkLinks,
    parts: &ShowParts,
    table: &GainTable,
    samples: &'a [f32],
    visitor: &'a [f32],
    room: &mut MixRoom,
    out: &mut [f32],
)
    requires gain_table { IsGainTable table.now }
    requires scene_ok { SceneOk scene.now }
    requires samples_ok { SamplesOk scene.now (recordings samples.now visitor.now) }
    requires rendering { Rendering ordered scene.now mixer.old }
    requires length_of_the_block { LengthOf scene.now.head time }
    requires links_of_the_scene { LinksOfScene scene.now links.now }
    requires parts_of_the_chunks { PartsOf scene.now.head parts.now.own }
    requires parts_of_longer_chunks { PartsOf (still_head scene.now.head) parts.now.wide }
    requires out_sized { length out.old ≡ scene.now.head.block * scene.now.head.channels }
    ensures state { mixer.new ≡ chunks_done scene.now (chunk_count scene.now.head) mixer.old }
    ensures samples { out.new ≡ block_samples scene.now (recordings samples.now visitor.now) mixer.old }
{
    let heard = Recordings::new(samples, visitor);
    if stands_still(mixer, scene, ordered, time) {
        process_still(
            mixer,
            chunk,
            scene,
            links,
            &parts.wide,
            table,
            &heard,
            room,
            out,
        );
        return;
    }
    process_chunks(
        mixer, chunk, scene, links, &parts.own, table, &heard, room, out,
    );
}
