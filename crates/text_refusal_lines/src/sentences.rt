// The sentences of the refusals as one row of bytes, and where each begins: one computed test of them all.
ghost use Rattle.std.specs.Prelude.{◌≡◌};
ghost use Rattle.text_word_table.specs.Inner.Table.{joined, starts_from};
ghost use Rattle.text_refusal_lines.specs.Lines.{sentences, sentence_row};

// How many sentences there are, that of row 0 among them.
const SENTENCES: usize = 28;

// One sentence to a line, in the order of the numbers.
pub fn words() -> [u8; 1166]
    ensures { result ≡ joined sentences }
{
    *b"a refusal without a sentence\
the plan's length is not that of its counts, or under 8 bytes\
the plan's header or volatile mask\
a procedure's parameters, or its root is not below the term count\
a term's tag, slot, field, procedure, child or spare bits\
a root or child of the wrong sort, or a call with the wrong number of arguments\
a term that is not named exactly once\
a procedure that uses a slot that nothing binds\
a schedule of over 4,096 picks\
a pick over 7\
a log area under 3 times the picks\
a log whose length is no multiple of 3, or over 12,288\
a record with a wrong kind, column or spare bit, or lacking its key and not last\
an area shorter than the plan\
a version other than 0 or 1 given to the judge\
a plan of version 0, or with a wait, which are left out\
a run without a missing key\
an area shorter than the schedule to be written\
a bound over 64\
a schedule that is not listed\
an area shorter than the bound\
calls that form a cycle\
a while in a plan whose moves are asked for\
a total of over 65,535 moves\
an area too short for the whole data file\
an area shorter than the plan's text\
an area shorter than the plan of the text\
an area without room for every picture of so many records"
}

// Where each begins, and where the last ends.
pub fn starts() -> [usize; 29]
    ensures { result ≡ starts_from 0 sentences }
{
    [
        0, 28, 89, 123, 188, 245, 324, 361, 408, 438, 451, 485, 539, 619, 648, 694, 749, 776, 823,
        838, 867, 897, 920, 963, 991, 1032, 1068, 1109, 1166,
    ]
}

// The row of a number: row 0 for those that have no sentence.
pub fn row(number: usize) -> usize
    ensures { result ≡ sentence_row number }
{
    if number < SENTENCES { number } else { 0 }
}
