// The words of terms, 40 bits each, in a slice of any length: whoever holds few terms needs no more than a short array. Functions that call each other for the
// children of a term lend such a slice anew with each call (`&*words`): handed on as it came, it would be read from memory at every term.
#![tactic(auto)]

ghost use Rattle.std.specs.Prelude.{◌≡◌, get_or};

// The word of a term; behind the last there is none, and null's stands for it.
pub fn word(words: &[usize], term: usize) -> usize
    ensures { result ≡ get_or words.now term 0 }
{
    if term < words.len() {
        return words[term];
    }
    0
}
