// What stands before the lanes: the size of the picture, how classes look, and the title of the words.
ghost use Rattle.std.specs.Prelude.{◌+◌, ◌≤◌, length};
ghost use Rattle.text_diagram_elements.specs.Diagram.{opening_text, style_text, columns_text, head_text};
ghost use Rattle.text_diagram_elements.specs.Inner.Drawn.{Drawn};

// The size of the picture.
fn put_opening(area: &mut [u8], at: usize, lanes: usize, records: usize) -> usize
    requires { (lanes ≤ 8) × (records ≤ 4096) × (at + 128 ≤ length area.old) }
    ensures { Drawn 128 area.old at (opening_text lanes records) area.new result }
{
    let at = text::put_word(area, at, b"<svg xmlns=\"http://www.w3.org/2000/svg\"");
    let at = text_diagram_elements::put_attribute(area, at, b"width", 40 + 80 * lanes + 280);
    let at = text_diagram_elements::put_attribute(area, at, b"height", 48 + 24 * records);
    text::put_word(area, at, b" font-family=\"monospace\" font-size=\"12\">\n")
}

// How classes look, and a white ground.
fn put_style(area: &mut [u8], at: usize) -> usize
    requires { at + 512 ≤ length area.old }
    ensures { Drawn 512 area.old at style_text area.new result }
{
    let at = text::put_word(
        area,
        at,
        b"<style>.lane{stroke:#999;stroke-width:2}.row{stroke:#bbb;stroke-dasharray:1 5}.title{text-anchor:middle}</style>\n",
    );
    let at = text::put_word(
        area,
        at,
        b"<style>.arrow{stroke:#05c;stroke-width:1.5;marker-end:url(#tip)}.race{stroke:red;stroke-width:2;stroke-dasharray:6 4}</style>\n",
    );
    let at = text::put_word(
        area,
        at,
        b"<marker id=\"tip\" viewBox=\"0 0 10 8\" refX=\"15\" refY=\"4\" markerWidth=\"10\" markerHeight=\"8\"",
    );
    let at = text::put_word(
        area,
        at,
        b" markerUnits=\"userSpaceOnUse\" orient=\"auto\">\n<path d=\"M0 0L10 4L0 8z\" fill=\"#05c\"/></marker>\n",
    );
    text::put_word(
        area,
        at,
        b"<rect width=\"100%\" height=\"100%\" fill=\"white\"/>\n",
    )
}

// What the columns of a record's words are.
fn put_columns(area: &mut [u8], at: usize, lanes: usize) -> usize
    requires { (lanes ≤ 8) × (at + 80 ≤ length area.old) }
    ensures { Drawn 80 area.old at (columns_text lanes) area.new result }
{
    let at = text::put_word(area, at, b"<text");
    let at = text_diagram_elements::put_attribute(area, at, b"x", 40 + 80 * lanes);
    text::put_word(
        area,
        at,
        b" y=\"20\">index kind thread object field value</text>\n",
    )
}

pub fn put_head(area: &mut [u8], at: usize, lanes: usize, records: usize) -> usize
    requires { (lanes ≤ 8) × (records ≤ 4096) × (at + 720 ≤ length area.old) }
    ensures { Drawn 720 area.old at (head_text lanes records) area.new result }
{
    let at = put_opening(area, at, lanes, records);
    let at = put_style(area, at);
    put_columns(area, at, lanes)
}
