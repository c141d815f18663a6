// Which token a name is: a name is looked for at one of 128 places, no two of the 62 names at the same one. A `match` on the place becomes a table that is
// there before the program runs; an array would be laid out anew in each call.
ghost use Rattle.std.specs.Prelude.{◌≡◌};
ghost use Rattle.plan_notation.specs.Lexing.{name_of};
ghost use Rattle.plan_scanner.specs.Inner.Names.{place_of, number_at, Entry};

// What is no token.
pub const UNKNOWN: u8 = 70;

// Seven bits from the middle of a product: the factor was found by trial, so that each of the 62 names has a place of its own, and both ends are taken.
fn place_of(value: usize) -> usize
    ensures { result ≡ place_of value }
{
    value % 4294967296 * 2747185 / 65536 % 128
}

// Of the places at which no number is: slots and words.
fn word_at(place: usize) -> usize
    requires { number_at 32 place ≡ 0 }
    ensures { Entry place result }
{
    match place {
        9 => 303392, // v0
        51 => 303649, // v1
        93 => 303906, // v2
        7 => 304163, // v3
        49 => 304420, // v4
        91 => 304677, // v5
        5 => 304934, // v6
        47 => 305191, // v7
        122 => 21298528473128, // version
        26 => 794498805180457, // volatile
        68 => 24076193755746090, // procedure
        10 => 186155, // in
        14 => 395471660, // then
        114 => 202496301, // else
        105 => 139054, // do
        57 => 4069167, // all
        8 => 4086064, // and
        48 => 399125553, // true
        97 => 8655666, // not
        66 => 322290483, // null
        73 => 8561716, // new
        118 => 7860021, // let
        59 => 184118, // if
        119 => 16073192247, // while
        127 => 172642360, // call
        12 => 216506937, // fork
        53 => 268291130, // join
        94 => 14376161083, // synch
        32 => 431959356, // wait
        72 => 438439736637, // notify
        _ => 70,
    }
}

// At the place of a name: its number, and in the last eight bits its token; elsewhere no name's number, 0, and no token. First the numbers 0 to 31.
fn entry_at(place: usize) -> usize
    ensures { Entry place result }
{
    match place {
        41 => 256, // 0
        83 => 513, // 1
        125 => 770, // 2
        39 => 1027, // 3
        81 => 1284, // 4
        123 => 1541, // 5
        37 => 1798, // 6
        79 => 2055, // 7
        121 => 2312, // 8
        35 => 2569, // 9
        71 => 19210, // 10
        113 => 19467, // 11
        27 => 19724, // 12
        69 => 19981, // 13
        111 => 20238, // 14
        25 => 20495, // 15
        67 => 20752, // 16
        109 => 21009, // 17
        23 => 21266, // 18
        65 => 21523, // 19
        86 => 28692, // 20
        0 => 28949, // 21
        42 => 29206, // 22
        84 => 29463, // 23
        126 => 29720, // 24
        40 => 29977, // 25
        82 => 30234, // 26
        124 => 30491, // 27
        38 => 30748, // 28
        80 => 31005, // 29
        101 => 38174, // 30
        15 => 38431, // 31
        _ => word_at(place),
    }
}

// The token that the name with this number is.
pub fn token_of(value: usize) -> u8
    ensures { result ≡ name_of value }
{
    let entry = entry_at(place_of(value));
    if entry / 256 == value {
        return (entry % 256) as u8;
    }
    UNKNOWN
}
