// The tests of the bytes that are counted, or that a run is made of.
ghost use Rattle.place.specs.Places.{line_feed, no_line_feed, goes_on, begins};

use crate::{begins, goes_on, is_line_feed};
use base::such::Test;

#[derive(Clone, Copy)]
pub struct Feed;

impl Test for Feed {
    ghost such = { line_feed };

    fn is_such(b: u8) -> bool {
        is_line_feed(b)
    }
}

#[derive(Clone, Copy)]
pub struct NoFeed;

impl Test for NoFeed {
    ghost such = { no_line_feed };

    #[tactic(auto, unfolding(crate::specs::Places::no_line_feed))]
    fn is_such(b: u8) -> bool {
        !is_line_feed(b)
    }
}

#[derive(Clone, Copy)]
pub struct GoesOn;

impl Test for GoesOn {
    ghost such = { goes_on };

    fn is_such(b: u8) -> bool {
        goes_on(b)
    }
}

#[derive(Clone, Copy)]
pub struct Begins;

impl Test for Begins {
    ghost such = { begins };

    fn is_such(b: u8) -> bool {
        begins(b)
    }
}
