// The configuration file that goes with the data file of a log (document 02, E14).
#![tactic(auto)]

ghost use Rattle.std.specs.Prelude.{◌+◌, ◌≤◌, ◌<◌, length};
ghost use Rattle.text.specs.Inner.Wrote.{Wrote};
ghost use Rattle.text_configuration.specs.Configuration.{channel_line, channel_lines, last_lines, configuration_file};

// The line of an object's channel.
fn put_channel(area: &mut [u8], at: usize, object: usize) -> usize
    requires { (object < 32) × (at + length (channel_line object) ≤ length area.old) }
    ensures { Wrote area.old at (channel_line object) area.new result }
{
    let at = text::put_number(area, at, object + 1);
    let at = text::put_word(area, at, b",object ");
    let at = text::put_number(area, at, object);
    text::put_word(area, at, b",,,0\r\n")
}

// The lines of the channels of 32 objects. None is over 18 bytes.
fn put_channels(area: &mut [u8], at: usize) -> usize
    requires { at + 576 ≤ length area.old }
    ensures wrote { Wrote area.old at (channel_lines 32) area.new result }
    ensures within { result ≤ at + 576 }
{
    let mut next = at;
    for object in 0..32 {
        next = put_channel(area, next, object);
    }
    next
}

// The lines after the channels, for so many samples.
fn put_last(area: &mut [u8], at: usize, samples: usize) -> usize
    requires { (samples ≤ 4096) × (at + 100 ≤ length area.old) }
    ensures wrote { Wrote area.old at (last_lines samples) area.new result }
    ensures within { result ≤ at + 100 }
{
    let at = text::put_word(area, at, b"50\r\n1\r\n1000,");
    let at = text::put_number(area, at, samples);
    let at = text::put_word(area, at, b"\r\n01/01/2000,00:00:00.000000\r\n");
    text::put_word(area, at, b"01/01/2000,00:00:00.000000\r\nASCII\r\n1\r\n")
}

// The whole file for so many samples, at the area's start.
pub fn put_configuration(area: &mut [u8], samples: usize) -> usize
    requires { (samples ≤ 4096) × (1024 ≤ length area.old) }
    ensures wrote { Wrote area.old 0 (configuration_file samples) area.new result }
    ensures within { result ≤ 1024 }
{
    let at = text::put_word(area, 0, b"Ruqzhemil,relay test set,1999\r\n32,0A,32D\r\n");
    let at = put_channels(area, at);
    put_last(area, at, samples)
}
