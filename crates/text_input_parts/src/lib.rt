// The parts of what the printing program reads (document 01, "Shot list"): a plan length of 16 bits, a plan and a schedule.
#![tactic(auto)]

ghost use Rattle.std.specs.Prelude.{◌≡◌, false};
ghost use Rattle.text_input_parts.specs.Input.{cut_short, plan_read, schedule_read};

// Whether it ends before the plan does, or the length is over 5,192.
pub fn cut_short(input: &[u8]) -> bool
    ensures { result ≡ cut_short input.now }
{
    if input.len() < 2 {
        return true;
    }
    let length = byte_numbers::half(input, 0);
    length > 5192 || input.len() < 2 + length
}

pub fn plan_of(input: &[u8]) -> &[u8]
    requires { cut_short input.now ≡ false }
    ensures { result.now ≡ plan_read input.now }
{
    let end = 2 + byte_numbers::half(input, 0);
    &input[2..end]
}

pub fn schedule_of(input: &[u8]) -> &[u8]
    requires { cut_short input.now ≡ false }
    ensures { result.now ≡ schedule_read input.now }
{
    let start = 2 + byte_numbers::half(input, 0);
    &input[start..]
}
