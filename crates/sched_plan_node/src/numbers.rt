ghost use Rattle.std.specs.Prelude.{◌≡◌};
ghost use Rattle.sched_plan_node.specs.Numbers.{numbers_in};

/// The numbers that a node is given, by how many there are.
#[derive(Clone, Copy, Debug, PartialEq, Eq)]
pub enum Numbers {
    Zero,
    One(u64),
    Two(u64, u64),
    Three(u64, u64, u64),
    Four(u64, u64, u64, u64),
    More,
}

impl Numbers {
    /// These numbers.
    pub(crate) fn of(numbers: &[u64]) -> Numbers
        ensures { result ≡ numbers_in numbers.now }
    {
        let mut rest = numbers.iter();
        let Some(n) = rest.next() else {
            return Numbers::Zero;
        };
        let Some(m) = rest.next() else {
            return Numbers::One(*n);
        };
        let Some(k) = rest.next() else {
            return Numbers::Two(*n, *m);
        };
        let Some(l) = rest.next() else {
            return Numbers::Three(*n, *m, *k);
        };
        match rest.next() {
            None => Numbers::Four(*n, *m, *k, *l),
            Some(_) => Numbers::More,
        }
    }
}
