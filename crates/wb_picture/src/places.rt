//! How high in a frame each place is drawn. If there is a long stretch of places at which nothing begins or ends, for example within one
//! large cell, its places are drawn shorter. So the other places have room.

/// The most folds of a frame.
pub const MOST_FOLDS: usize = 3;

/// A fold: the places from `from` to before `until`, in bytes. These places are drawn only as high as `drawn` unfolded bytes.
#[derive(Clone, Copy)]
pub struct Fold {
    pub from: u32,
    pub until: u32,
    pub drawn: u32,
}

/// The places that a frame shows, from place 0 at its lower edge.
#[derive(Clone, Copy)]
pub struct Places {
    /// The place at the frame's upper edge, in bytes.
    pub reach: u32,
    /// The folds, in order of place. Unused folds are empty.
    folds: [Fold; MOST_FOLDS],
    is_folded: bool,
}

impl Fold {
    /// A fold without places.
    pub fn empty() -> Fold {
        Fold {
            from: u32::MAX,
            until: u32::MAX,
            drawn: 0,
        }
    }

    pub fn is_empty(&self) -> bool {
        self.from >= self.until
    }

    /// How many bytes lower a place is drawn because of this fold.
    fn hidden_up_to(&self, place: u32) -> u32 {
        let over = place.min(self.until).saturating_sub(self.from);
        if over == 0 {
            return 0;
        }
        let all = self.until.saturating_sub(self.from);
        over.saturating_sub(share_of(over, all, self.drawn))
    }
}

impl Places {
    /// The places up to `reach`, without folds.
    pub fn up_to(reach: u32) -> Places {
        Places {
            reach,
            folds: [Fold::empty(), Fold::empty(), Fold::empty()],
            is_folded: false,
        }
    }

    /// Returns these places with folds, which must be in order of place and must not overlap.
    pub fn with_folds(self, folds: [Fold; MOST_FOLDS]) -> Places {
        Places {
            folds,
            is_folded: true,
            ..self
        }
    }

    /// Returns these places and some more above them, so that the highest of these places is below the frame's upper edge.
    pub fn with_margin(self) -> Places {
        let margin = self.drawn_up_to(self.reach) / 16;
        Places {
            reach: self.reach.saturating_add(margin),
            ..self
        }
    }

    /// The folds. Some folds may be empty.
    pub fn folds(&self) -> &[Fold] {
        &self.folds
    }

    pub fn is_folded(&self) -> bool {
        self.is_folded
    }

    /// The height at which a place is drawn, in bytes: the place itself, less the bytes that the folds below it hide.
    pub fn drawn_up_to(&self, place: u32) -> u32 {
        if !self.is_folded {
            return place;
        }
        let mut hidden = 0u32;
        for fold in self.folds() {
            hidden = hidden.saturating_add(fold.hidden_up_to(place));
        }
        place.saturating_sub(hidden)
    }

    /// The end of the fold around a place; the place itself if no fold is around it.
    pub fn end_of_fold(&self, place: u32) -> u32 {
        for fold in self.folds() {
            if fold.from < place && place < fold.until {
                return fold.until;
            }
        }
        place
    }
}

/// The share of `length` that `part` has of `whole`: `part * length / whole`, rounded down; 0 if `whole` is 0.
pub fn share_of(part: u32, whole: u32, length: u32) -> u32 {
    let product = u64::from(part).saturating_mul(u64::from(length));
    let quotient = product.checked_div(u64::from(whole)).unwrap_or(0);
    u32::try_from(quotient).unwrap_or(u32::MAX)
}

/// The least of the numbers 1, 2, 5, 10, 20, 50 and so on that reaches at least `length` when multiplied by `most`.
pub fn round_step(length: u32, most: u32) -> u32 {
    let mut ten = 1u32;
    for _ in 0..9 {
        for factor in [1u32, 2, 5] {
            let step = ten.saturating_mul(factor);
            if step.saturating_mul(most) >= length {
                return step;
            }
        }
        ten = ten.saturating_mul(10);
    }
    ten
}
