// Terms by their 40-bit words: which word a term has, and the values that need no move.
ghost use Rattle.std.specs.Prelude.{◌≡◌};
ghost use Rattle.run_term_words.specs.Inner.Words.{word_at, value_of, truth_of};

use plan_operands::tags;

// The word of a term; an index over 1,023 wraps.
pub fn word(words: &[usize; 1024], term: usize) -> usize
    ensures { result ≡ word_at words.now term }
{
    words[term % 1024]
}

// The value of an expression that needs no move; 32 where it needs one.
pub fn value(words: &[usize; 1024], environment: usize, term: usize) -> usize
    ensures { result ≡ value_of words.now environment term }
{
    let word = word(words, term);
    let tag = plan_operands::tag(word);
    match tag {
        tags::NULL => 0,
        tags::VARIABLE => crate::slots::slot(environment, plan_operands::slot_of(word)),
        _ => 32,
    }
}

// The value of a condition that needs no move, 0 false and 1 true; 2 where it needs one. `not true` is the value false.
pub fn truth(words: &[usize; 1024], term: usize) -> usize
    ensures { result ≡ truth_of words.now term }
{
    let word = word(words, term);
    let tag = plan_operands::tag(word);
    match tag {
        tags::TRUE => 1,
        tags::NOT => {
            let operand = crate::words::word(words, plan_operands::first(word));
            if plan_operands::tag(operand) == tags::TRUE {
                0
            } else {
                2
            }
        }
        _ => 2,
    }
}
