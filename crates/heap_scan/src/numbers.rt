//! A table of the numbers below 10000, in decimal.

// An entry for each last digit, behind the pieces of a number: how long its text is, in the lowest
// byte, and the digits before the last, each in the byte where it stands. A blank is the last byte.
macro_rules! with_ones {
    ($([$($piece:literal)*])*) => {[$(
        $($piece |)* 0x2030_0000_0000_0000,
        $($piece |)* 0x2031_0000_0000_0000,
        $($piece |)* 0x2032_0000_0000_0000,
        $($piece |)* 0x2033_0000_0000_0000,
        $($piece |)* 0x2034_0000_0000_0000,
        $($piece |)* 0x2035_0000_0000_0000,
        $($piece |)* 0x2036_0000_0000_0000,
        $($piece |)* 0x2037_0000_0000_0000,
        $($piece |)* 0x2038_0000_0000_0000,
        $($piece |)* 0x2039_0000_0000_0000,
    )*]};
}

// Numbers of one digit, of two, and of more.
macro_rules! with_tens {
    ($([$($piece:literal)*])*) => {
        with_ones!(
            [2]
            [3 0x3100_0000_0000] [3 0x3200_0000_0000] [3 0x3300_0000_0000]
            [3 0x3400_0000_0000] [3 0x3500_0000_0000] [3 0x3600_0000_0000]
            [3 0x3700_0000_0000] [3 0x3800_0000_0000] [3 0x3900_0000_0000]
            $(
                [$($piece)* 0x3000_0000_0000] [$($piece)* 0x3100_0000_0000]
                [$($piece)* 0x3200_0000_0000] [$($piece)* 0x3300_0000_0000]
                [$($piece)* 0x3400_0000_0000] [$($piece)* 0x3500_0000_0000]
                [$($piece)* 0x3600_0000_0000] [$($piece)* 0x3700_0000_0000]
                [$($piece)* 0x3800_0000_0000] [$($piece)* 0x3900_0000_0000]
            )*
        )
    };
}

// Numbers of three digits, and of four by the first.
macro_rules! with_hundreds {
    ($($thousands:literal)*) => {
        with_tens!(
            [4 0x31_0000_0000] [4 0x32_0000_0000] [4 0x33_0000_0000]
            [4 0x34_0000_0000] [4 0x35_0000_0000] [4 0x36_0000_0000]
            [4 0x37_0000_0000] [4 0x38_0000_0000] [4 0x39_0000_0000]
            $(
                [5 $thousands 0x30_0000_0000] [5 $thousands 0x31_0000_0000]
                [5 $thousands 0x32_0000_0000] [5 $thousands 0x33_0000_0000]
                [5 $thousands 0x34_0000_0000] [5 $thousands 0x35_0000_0000]
                [5 $thousands 0x36_0000_0000] [5 $thousands 0x37_0000_0000]
                [5 $thousands 0x38_0000_0000] [5 $thousands 0x39_0000_0000]
            )*
        )
    };
}

/// Entry n, read from the lowest byte on, has at its end n in decimal and a blank, and before that
/// how long they are.
pub(crate) static DECIMALS: [u64; 10000] = with_hundreds!(
    0x3100_0000 0x3200_0000 0x3300_0000 0x3400_0000 0x3500_0000
    0x3600_0000 0x3700_0000 0x3800_0000 0x3900_0000
);
