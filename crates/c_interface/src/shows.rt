// Shows: the render, the silent tracks, an amplitude.
ghost use Rattle.std.specs.Prelude.{◌≡◌, length};
ghost use Rattle.recordings.specs.Recordings.{recordings};
ghost use Rattle.decibels.specs.Answer.{amplitude_answer, written_over};
ghost use Rattle.scene_questions.specs.Questions.{answer};
ghost use Rattle.room_desk.specs.Render.{output_of, InsideUnheard};
ghost use Rattle.silent_tracks.specs.Silence.{silent_answer, silences_of};

// Returns 0 and writes the whole output, or returns the number of the first question that says no and
// writes nothing.
#[unsafe(no_mangle)]
pub extern "C" fn room_desk_render<'a>(
    scene: &[u8],
    samples: &'a [f32],
    visitor: &'a [f32],
    output: &mut [f32],
) -> u32
    ensures number { let heard = recordings samples.now visitor.now in
        result ≡ answer scene.now heard (length output.old) }
    ensures output { let heard = recordings samples.now visitor.now in
        output.new ≡ output_of scene.now heard output.old }
    ensures silence { let heard = recordings samples.now visitor.now in
        InsideUnheard scene.now heard output.old output.new }
{
    room_desk::render(scene, samples, visitor, output)
}

// Returns 0 and writes each track's silence, or returns the number of the first question that says no
// and writes nothing.
#[unsafe(no_mangle)]
pub extern "C" fn room_desk_silent<'a>(
    scene: &[u8],
    samples: &'a [f32],
    visitor: &'a [f32],
    tracks: &mut [u32],
) -> u32
    ensures number { let heard = recordings samples.now visitor.now in
        result ≡ silent_answer scene.now heard (length tracks.old) }
    ensures tracks { let heard = recordings samples.now visitor.now in
        tracks.new ≡ silences_of scene.now heard tracks.old }
{
    silent_tracks::silent(scene, samples, visitor, tracks)
}

// Returns 0 and writes the amplitude, or returns 11 and leaves what was there.
#[unsafe(no_mangle)]
pub extern "C" fn room_desk_amplitude(decibels: f32, amplitude: &mut f32) -> u32
    ensures number { result ≡ (amplitude_answer decibels).number }
    ensures written { amplitude.new ≡ written_over (amplitude_answer decibels).value amplitude.old }
{
    decibels::write_amplitude(decibels, amplitude)
}
