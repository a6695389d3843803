// The search in a filter list for the first element that matches.
ghost use Rattle.std.specs.Prelude.{length};
ghost use Rattle.filter.specs.Needs.{Fits};

use crate::filters::FilterElement;
use crate::lists::FilterList;

// A list, with the memory that it lies in.
#[derive(Clone, Copy)]
pub struct Filters<'a> {
    pub mem: &'a [u32],
    pub list: FilterList,
    ghost fits: { Fits list (length mem.now) },
}

impl Filters<'_> {
    ghost use Rattle.std.specs.Prelude.{◌≡◌, ◌<◌, MatchOption};
    ghost use Rattle.filter.specs.Search.{filter_at, matches_at, first_match};

    // Element i.
    #[tactic(auto, unfolding(crate::specs::Search::filter_at))]
    pub fn at(&self, i: u32) -> FilterElement
        requires { i < self.now.list.count }
        ensures { result ≡ filter_at self.now.mem.now self.now.list i }
    {
        let start = self.list.start.0 as usize;
        if self.list.xtd {
            let at = start + 2 * (i as usize);
            FilterElement::decode29(self.mem[at], self.mem[at + 1])
        } else {
            FilterElement::decode11(self.mem[start + (i as usize)])
        }
    }

    fn matches_at(&self, id: u32, i: u32) -> bool
        requires { i < self.now.list.count }
        ensures { result ≡ matches_at self.now.mem.now self.now.list id i }
    {
        self.at(i).matches(self.list.xtd, self.list.xidam, id)
    }

    // The search: the lowest element that matches, if one does.
    #[tactic(auto, using(crate::proofs::FirstMatches::first_searched, crate::proofs::FirstMatches::none_searched))]
    pub fn first_match(&self, id: u32) -> Option<u32>
        ensures { MatchOption result
            (first_match self.now.mem.now self.now.list id ≡ self.now.list.count)
            (λ i. (first_match self.now.mem.now self.now.list id ≡ i) × (i < self.now.list.count)) }
    {
        // Not `find`: tried and slower, by a tenth to a sixth over a list of 128.
        for i in 0..self.list.count {
            if self.matches_at(id, i) {
                return Some(i);
            }
        }
        None
    }
}
