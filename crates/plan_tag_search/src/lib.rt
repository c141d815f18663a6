// Whether a tag occurs among a plan's terms.
#![tactic(auto)]

ghost use Rattle.std.specs.Prelude.{◌≡◌, ◌<◌, eqb};
ghost use Rattle.plan_packed.specs.Refusals.{any_below};
ghost use Rattle.plan_packed.specs.Inner.Steps.{tag_in};

// The tag occurs among the first terms.
pub fn occurs(words: &[usize; 1024], count: usize, tag: usize) -> bool
    requires { count < 1025 }
    ensures { result ≡ any_below count (λ t. eqb (tag_in words.now t) tag) }
{
    words[..count]
        .iter()
        .any(|word| plan_operands::tag(*word) == tag)
}
