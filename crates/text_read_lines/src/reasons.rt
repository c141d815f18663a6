// What is said of a text that is no plan, as one row of bytes, and where each reason begins: one computed test of them all.
ghost use Rattle.std.specs.Prelude.{◌≡◌};
ghost use Rattle.text_word_table.specs.Inner.Table.{joined, starts_from};
ghost use Rattle.text_read_lines.specs.Reasons.{reasons};

// One reason to a line, in the order of the rows.
pub fn words() -> [u8; 699]
    ensures { result ≡ joined reasons }
{
    *b"something else is wanted\
an expression is wanted\
a condition is wanted\
an expression or a condition is wanted\
a slot, 0 to 7, or - is wanted\
a field above the last one, eight at most, or ) is wanted\
the number of a procedure is wanted\
as many arguments as the procedure has parameters are wanted\
a number of parameters, 0 to 8, is wanted\
the number of the next procedure is wanted\
`procedure` is wanted\
`in` is wanted\
`then` is wanted\
`else` is wanted\
`do` is wanted\
`(` is wanted\
`)` is wanted\
a field, 1 to 31, is wanted\
`=` is wanted\
a plan has at most 1,024 terms\
too much is within something else\
the version is 0 or 1\
a slot is used that nothing binds\
a plan has at most 32 procedures\
a text has at most 16,384 tokens"
}

// Where each begins, and where the last ends.
pub fn starts() -> [usize; 26]
    ensures { result ≡ starts_from 0 reasons }
{
    [
        0, 24, 47, 68, 106, 136, 193, 228, 288, 329, 371, 392, 406, 422, 438, 452, 465, 478, 505,
        518, 548, 581, 602, 635, 667, 699,
    ]
}
