// A scene file with its samples, rendered or refused.
ghost use Rattle.std.specs.Prelude.{◌≡◌, length};
ghost use Rattle.recordings.specs.Recordings.{recordings};
ghost use Rattle.scene_questions.specs.Questions.{answer};
ghost use Rattle.room_desk.specs.Render.{output_of, InsideUnheard};

use scene_render::render_scene;

// Returns 0 and writes the whole output, or returns the number of the first question that says no and
// writes nothing.
pub fn render<'a>(scene: &[u8], samples: &'a [f32], visitor: &'a [f32], output: &mut [f32]) -> u32
    ensures number { let heard = recordings samples.now visitor.now in
        result ≡ answer scene.now heard (length output.old) }
    ensures output { let heard = recordings samples.now visitor.now in
        output.new ≡ output_of scene.now heard output.old }
    ensures silence { let heard = recordings samples.now visitor.now in
        InsideUnheard scene.now heard output.old output.new }
{
    let read = scene_reader::read_scene(scene, samples, visitor, output.len());
    if read.number != 0 {
        return read.number;
    }
    let tables = read.scene;
    render_scene(tables, samples, visitor, output);
    0
}
