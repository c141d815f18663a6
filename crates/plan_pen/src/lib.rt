// Where writing stands, and what stands before a token.
#![tactic(auto)]

pub mod looks; // looks.rt: what each token says of the gaps at it

ghost use Rattle.std.specs.Prelude.{◌≡◌, ◌<◌, ◌≤◌, length};
ghost use Rattle.plan_notation.specs.Tokens.{text_end, text_of};
ghost use Rattle.plan_notation.specs.Layout.{start, depth_before, depth_after, indentation, pen_after};
ghost use Rattle.plan_pen.specs.Inner.Pens.{pen_of, gap_bytes, Parts};
ghost use Rattle.plan_pen.specs.Inner.Looks.{look_rows};

use looks::Looks;

// The column, from 0; how many parentheses, lets and ifs have begun and not ended; the token before.
#[derive(Clone, Copy)]
pub struct Pen {
    pub column: usize,
    pub depth: usize,
    pub last: u8,
}

// What stands before a token: a line feed or none, and spaces.
#[derive(Clone, Copy)]
pub struct Gap {
    pub spaces: usize,
    pub feed: bool,
}

const TEXT_END: u8 = 69;

impl Gap {
    // How many bytes it has.
    pub fn length(self) -> usize
        requires { self.spaces ≤ 40 }
        ensures { result ≡ length (gap_bytes self) }
    {
        if self.feed {
            return self.spaces + 1;
        }
        self.spaces
    }
}

impl Pen {
    // No token is before.
    pub fn start() -> Pen
        ensures { pen_of result ≡ start }
    {
        Pen {
            column: 0,
            depth: 0,
            last: TEXT_END,
        }
    }

    // How deep a token is that may end something.
    fn depth_before(self, looks: &Looks, token: u8) -> usize
        requires { token < text_end }
        ensures { result ≡ depth_before (pen_of self) token }
    {
        if looks.ends(token) {
            return self.depth.saturating_sub(1);
        }
        self.depth
    }

    // How deep what follows is.
    fn depth_after(self, looks: &Looks, token: u8) -> usize
        requires { (token < text_end) × (self.depth < 16384) }
        ensures { result ≡ depth_after (pen_of self) token }
    {
        let depth = self.depth_before(looks, token);
        if looks.begins(token) {
            return depth + 1;
        }
        depth
    }

    // How far a line is indented that begins with a token.
    fn indentation(self, looks: &Looks, token: u8) -> usize
        requires { token < text_end }
        ensures { result ≡ indentation (pen_of self) token }
    {
        let depth = self.depth_before(looks, token);
        if depth < 20 {
            return 2 * depth;
        }
        40
    }

    // What stands before a token whose text is so long.
    pub fn gap_before(self, looks: &Looks, token: u8, width: usize) -> Gap
        requires token_value { (token < text_end) × (self.last ≤ text_end) }
        requires width_value { (width ≡ length (text_of token)) × (width < 10) × (self.column < 100) }
        ensures { Parts (pen_of self) token result }
    {
        let between = looks.between(self.last, token);
        if (between / 8 != 0) | (98 < self.column + width) {
            return Gap {
                spaces: self.indentation(looks, token),
                feed: true,
            };
        }
        if between % 8 == 0 {
            return Gap {
                spaces: 1,
                feed: false,
            };
        }
        Gap {
            spaces: 0,
            feed: false,
        }
    }

    // Where writing stands behind a token and its gap.
    pub fn after(self, looks: &Looks, token: u8, width: usize, gap: Gap) -> Pen
        requires token_value { token < text_end }
        requires width_value { (width ≡ length (text_of token)) × (width < 10) × (self.column < 100) × (self.depth < 16384) }
        requires parts { Parts (pen_of self) token gap }
        ensures { pen_of result ≡ pen_after (pen_of self) token }
    {
        let depth = self.depth_after(looks, token);
        let line = if gap.feed { 0 } else { self.column };
        Pen {
            column: line + gap.spaces + width,
            depth,
            last: token,
        }
    }

    // Goes on behind a token whose text is so long, and says what stands before the token.
    pub fn pass(&mut self, looks: &Looks, token: u8, width: usize) -> Gap
        requires token_value { (token < text_end) × (self.old.last ≤ text_end) }
        requires width_value { (width ≡ length (text_of token)) × (width < 10) }
        requires place { (self.old.column < 100) × (self.old.depth < 16384) }
        ensures gap { Parts (pen_of self.old) token result }
        ensures after { pen_of self.new ≡ pen_after (pen_of self.old) token }
    {
        let gap = self.gap_before(looks, token, width);
        *self = self.after(looks, token, width, gap);
        gap
    }
}
