// Attributes with a number, and straight lines.
#![tactic(auto)]

ghost use Rattle.std.specs.Prelude.{◌+◌, ◌≤◌, ◌<◌, length};
ghost use Rattle.text_diagram_elements.specs.Diagram.{attribute, segment};
ghost use Rattle.text_diagram_elements.specs.Inner.Drawn.{Drawn, Inside};

// A race that is drawn: the indices of its last write and of the access that is unordered after it.
#[derive(Clone, Copy)]
pub struct Race {
    pub write: usize,
    pub access: usize,
}

// A name and a number of at most five digits.
pub fn put_attribute(area: &mut [u8], at: usize, name: &[u8], number: usize) -> usize
    requires { (number < 100000) × (at + (length name.now + 9) ≤ length area.old) }
    ensures { Drawn (length name.now + 9) area.old at (attribute name.now number) area.new result }
{
    let at = text::put_byte(area, at, 32);
    let at = text::put_word(area, at, name);
    let at = text::put_word(area, at, b"=\"");
    let at = text::put_number(area, at, number);
    text::put_byte(area, at, 34)
}

// A straight line of a class, from one place to another.
pub fn put_segment(
    area: &mut [u8],
    at: usize,
    class: &[u8],
    x1: usize,
    y1: usize,
    x2: usize,
    y2: usize,
) -> usize
    requires { Inside x1 y1 x2 y2 × (at + (length class.now + 61) ≤ length area.old) }
    ensures { Drawn (length class.now + 61) area.old at (segment class.now x1 y1 x2 y2) area.new result }
{
    let at = text::put_word(area, at, b"<line class=\"");
    let at = text::put_word(area, at, class);
    let at = text::put_byte(area, at, 34);
    let at = put_attribute(area, at, b"x1", x1);
    let at = put_attribute(area, at, b"y1", y1);
    let at = put_attribute(area, at, b"x2", x2);
    let at = put_attribute(area, at, b"y2", y2);
    text::put_word(area, at, b"/>\n")
}
