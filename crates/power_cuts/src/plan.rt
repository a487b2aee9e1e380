// The forty cuts: what the unit does before each, and where its power fails.

use std::fmt;

pub const CUTS: usize = 40;

// What a cut leaves of the store that it falls into.
#[derive(Clone, Copy)]
pub enum Left {
    Nothing,
    Half,
    Whole,
    Zeros,
    Ones,
    Noise,
}

impl fmt::Display for Left {
    fn fmt<W: fmt::Write>(&self, f: &mut fmt::Formatter<W>) -> fmt::Result {
        f.pad(match self {
            Left::Nothing => "nothing",
            Left::Half => "half",
            Left::Whole => "whole",
            Left::Zeros => "zeros",
            Left::Ones => "ones",
            Left::Noise => "noise",
        })
    }
}

// A number of saves that end, then a save, or the power-up after the cut before, that makes a number of stores until its power fails: in
// one more, or between two calls.
#[derive(Clone, Copy)]
pub struct Cut {
    pub saves: usize,
    pub resumes: bool,
    pub stores: usize,
    pub left: Option<Left>,
}

fn save(saves: usize, stores: usize, left: Option<Left>) -> Cut {
    Cut {
        saves,
        resumes: false,
        stores,
        left,
    }
}

fn power_up(stores: usize, left: Option<Left>) -> Cut {
    Cut {
        saves: 0,
        resumes: true,
        stores,
        left,
    }
}

// The first unit, up to its alert. A call makes 16 words and a record; an erase comes before them, after them, or not at all.
fn first_unit(k: usize) -> Cut {
    match k {
        1 => save(0, 2, Some(Left::Zeros)),
        2 => save(0, 16, Some(Left::Nothing)),
        3 => save(0, 16, Some(Left::Whole)),
        4 => save(0, 0, Some(Left::Half)),
        5 => save(0, 15, Some(Left::Noise)),
        6 => save(1, 7, Some(Left::Ones)),
        7 => save(0, 17, Some(Left::Noise)),
        8 => power_up(0, Some(Left::Noise)),
        9 => power_up(0, Some(Left::Half)),
        10 => save(0, 16, Some(Left::Nothing)),
        11 => save(0, 16, Some(Left::Whole)),
        12 => save(2, 9, None),
        13 => save(0, 17, None),
        14 => power_up(0, Some(Left::Ones)),
        15 => save(0, 17, Some(Left::Zeros)),
        16 => save(0, 17, Some(Left::Half)),
        17 => save(0, 17, Some(Left::Nothing)),
        18 => save(0, 18, None),
        19 => save(0, 4, Some(Left::Zeros)),
        20 => save(0, 0, None),
        21 => power_up(16, Some(Left::Nothing)),
        22 => save(0, 11, Some(Left::Half)),
        23 => save(0, 16, None),
        24 => save(0, 16, Some(Left::Nothing)),
        25 => power_up(17, Some(Left::Noise)),
        26 => save(0, 3, Some(Left::Whole)),
        _ => save(0, 8, Some(Left::Ones)),
    }
}

fn second_unit(k: usize) -> Cut {
    match k {
        28 => save(0, 17, None),
        29 => save(3, 1, Some(Left::Noise)),
        30 => save(0, 16, Some(Left::Whole)),
        31 => save(2, 12, Some(Left::Whole)),
        32 => power_up(16, Some(Left::Whole)),
        33 => save(0, 6, None),
        34 => save(4, 10, Some(Left::Half)),
        35 => save(1, 16, Some(Left::Nothing)),
        36 => power_up(6, Some(Left::Zeros)),
        37 => save(0, 17, Some(Left::Ones)),
        38 => save(0, 4, Some(Left::Ones)),
        39 => save(4, 13, Some(Left::Nothing)),
        _ => save(0, 17, Some(Left::Noise)),
    }
}

// Cut k, 1 to 40.
pub fn cut_number(k: usize) -> Cut {
    if k < 28 {
        first_unit(k)
    } else {
        second_unit(k)
    }
}

// Whether the power-up after cut k is cut into.
pub fn cut_again(k: usize) -> bool {
    cut_number(k % 41 + 1).resumes
}
