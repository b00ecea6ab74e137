// Question 1: the file's size.
ghost use Rattle.std.specs.Prelude.{◌≡◌};
ghost use Rattle.scene_questions.specs.Questions.{size_ok};

use limits::FILE_BYTES;

pub fn size_ok(file: &[u8]) -> bool
    ensures { result ≡ size_ok file.now }
{
    if file.len() == 0 {
        return false;
    }
    if FILE_BYTES < file.len() {
        return false;
    }
    file[file.len() - 1] == b'\n'
}
