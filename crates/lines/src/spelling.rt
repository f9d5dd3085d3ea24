// A line spelled out in a place of its own, so that its size is known before a buffer is touched.
ghost use Rattle.std.specs.Prelude.{◌≡◌, ◌<◌, ◌≤◌, true, [], ◌∷◌, ◌++◌, length};
ghost use Rattle.lines.specs.Spelling.{number_text, small};
ghost use Rattle.std.specs.List.{flat_map, list_all};

use arrayvec::ArrayString;
use itoa::Buffer;

// A letter, numbers that each stand behind a space, and a newline: 44 bytes at most. There is always room, which `write!`
// would not know: it answers a `Result`.
pub(crate) fn spell(letter: char, numbers: &[u16]) -> ArrayString<44>
    requires few { length numbers.now ≤ 7 }
    requires ascii { letter < 128 }
    ensures text { result.bytes ≡ letter ∷ flat_map number_text numbers.now ++ 10 ∷ [] }
    ensures small { list_all small numbers.now ≡ true }
{
    let mut text = ArrayString::new();
    let mut buffer = Buffer::new();
    text.push(letter);
    for n in numbers {
        text.push(' ');
        text.push_str(buffer.format(*n));
    }
    text.push('\n');
    text
}
