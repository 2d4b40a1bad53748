// A run that is listed: two lists, lent, have what its names answer.
ghost use Rattle.std.specs.Prelude.{◌≡◌, ◌≤◌, IsTrue, slice_index};
ghost use Rattle.std.specs.Option.{option_map_or};
ghost use Rattle.run.specs.Inside.{most_elements};
ghost use Rattle.run.specs.Layout.{all_below};

use crate::Run;
use crate::layout::{place0, place1, place2};
use scale::Answers;

/// How a list writes a truth value.
pub trait Truth: Copy {
    /// The scale of the values.
    type Scale: Answers;

    /// The value that is written.
    ghost says: { Self → Self.Scale };

    /// That value.
    fn value(self) -> Self::Scale
        ensures { result ≡ says self };
}

/// How many elements there are, and the list of those that constants and functions answer.
#[derive(Clone, Copy)]
pub struct Elements<'a> {
    pub size: u8,
    pub list: &'a [u8],
    ghost some: { 1 ≤ size },
    ghost few: { size ≤ most_elements },
    ghost below: { IsTrue (all_below size list.now) },
}

/// A run that is listed: the elements that its constants and functions answer, and the values of its predicates as a `T` writes
/// them.
#[derive(Clone, Copy)]
pub struct Listed<'a, T> {
    pub(crate) elements: Elements<'a>,
    pub(crate) truths: &'a [T],
}

impl<'a, T: Truth> Listed<'a, T> {
    ghost use Rattle.run.specs.Listed.{said};

    // The element at a place of the list, 0 for no place.
    fn element(&self, place: Option<usize>) -> u8
        ensures { result ≡ option_map_or (slice_index self.now.elements.list.now) place 0 }
    {
        place
            .and_then(|at| self.elements.list.get(at))
            .copied()
            .unwrap_or(0)
    }

    // The value at a place of the list, bottom for no place.
    fn truth(&self, place: Option<usize>) -> T::Scale
        ensures { result ≡ option_map_or (said T.Scale.algebra.bottom T.says self.now.truths.now) place T.Scale.algebra.bottom }
    {
        place
            .and_then(|at| self.truths.get(at))
            .map_or(T::Scale::bottom(), |truth| truth.value())
    }
}

impl<'a, T: Truth> Run for Listed<'a, T> {
    ghost use Rattle.run.specs.Listed.{listed_view};

    type Scale = T::Scale;

    ghost meaning = { listed_view T.Scale.algebra.bottom T.says };

    ghost few = { λ r. r.elements.few };

    fn size(&self) -> u8 {
        self.elements.size
    }

    fn constant(&self, digit: u8) -> u8 {
        self.element(place0(digit))
    }

    fn apply1(&self, digit: u8, a: u8) -> u8 {
        self.element(place1(self.size(), digit, a))
    }

    fn apply2(&self, digit: u8, a: u8, b: u8) -> u8 {
        self.element(place2(self.size(), digit, a, b))
    }

    fn predicate0(&self, digit: u8) -> T::Scale {
        self.truth(place0(digit))
    }

    fn predicate1(&self, digit: u8, a: u8) -> T::Scale {
        self.truth(place1(self.size(), digit, a))
    }

    fn predicate2(&self, digit: u8, a: u8, b: u8) -> T::Scale {
        self.truth(place2(self.size(), digit, a, b))
    }
}
