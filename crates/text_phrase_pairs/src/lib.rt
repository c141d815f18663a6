// Two phrases of a sentence, one behind the other.
#![tactic(auto)]

ghost use Rattle.std.specs.Prelude.{◌+◌, ◌≤◌, ◌++◌, length};
ghost use Rattle.text.specs.Text.{decimal};
ghost use Rattle.text.specs.Inner.Wrote.{Wrote};

// Two words, each with its number, which has at most 20 digits.
pub fn put_two(
    area: &mut [u8],
    at: usize,
    first: &[u8],
    field: usize,
    second: &[u8],
    object: usize,
) -> usize
    requires { at + (length first.now + length second.now + 40) ≤ length area.old }
    ensures wrote { Wrote area.old at ((first.now ++ decimal field) ++ (second.now ++ decimal object)) area.new result }
    ensures upper_bound { result ≤ at + (length first.now + length second.now + 40) }
{
    let at = text_phrases::put_phrase(area, at, first, field);
    text_phrases::put_phrase(area, at, second, object)
}
