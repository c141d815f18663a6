// The forms that begin with a word.
ghost use Rattle.std.specs.Prelude.{◌≡◌, ◌<◌};
ghost use Rattle.plan_parser_goals.specs.Inner.Moves.{PackedForm, form_at};

// The goals behind the word, as digits to the base 1024, the last goal first.
const TRUE: usize = 140;

const NOT: usize = 141 + 1024 * 165;

const NULL: usize = 128;

const NEW: usize = 130 + 1024 * (512 + 1024 * 62);

const LET: usize = 133 + 1024 * (161 + 1024 * (43 + 1024 * (161 + 1024 * (66 + 1024 * 192))));

const IF: usize = 134 + 1024 * (161 + 1024 * (45 + 1024 * (161 + 1024 * (44 + 1024 * 162))));

const WHILE: usize = 135 + 1024 * (161 + 1024 * (46 + 1024 * 162));

const CALL: usize = 136 + 1024 * 193;

const FORK: usize = 137 + 1024 * 167;

const JOIN: usize = 138 + 1024 * 167;

const SYNCHRONIZED: usize = 139 + 1024 * (161 + 1024 * (46 + 1024 * 161));

const WAIT: usize = 146 + 1024 * 167;

const NOTIFY: usize = 147 + 1024 * 167;

const NOTIFY_ALL: usize = 148 + 1024 * 167;

// From `true` to `notify` in the order of their tokens, and `notify all`. A match, here and below, for a constant array would be laid out anew in every call.
pub fn goals(form: usize) -> usize
    requires { form < 14 }
    ensures { PackedForm form result × (result < 1152921504606846976) }
{
    match form {
        0 => TRUE,
        1 => NOT,
        2 => NULL,
        3 => NEW,
        4 => LET,
        5 => IF,
        6 => WHILE,
        7 => CALL,
        8 => FORK,
        9 => JOIN,
        10 => SYNCHRONIZED,
        11 => WAIT,
        12 => NOTIFY,
        _ => NOTIFY_ALL,
    }
}

// How tightly they bind.
pub fn binding(form: usize) -> usize
    requires { form < 14 }
    ensures { result ≡ (form_at form).binding }
{
    match form {
        0 => 3,
        1 => 1,
        2 => 3,
        3 => 3,
        4 => 0,
        5 => 0,
        6 => 0,
        7 => 3,
        8 => 2,
        9 => 2,
        10 => 0,
        11 => 2,
        12 => 2,
        _ => 2,
    }
}
