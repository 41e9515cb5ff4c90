// A number whose groups are known: each has three digits, and it is known up to which order they are not 0.
ghost use Rattle.std.specs.Prelude.{◌≡◌, true, ◌*◌, ◌≤◌, ◌<◌, eqb, length};
ghost use Rattle.figures.specs.Text.{plain, value};
ghost use Rattle.figures.specs.Groups.{total, Groups};
ghost use Rattle.groups.specs.Highest.{ZeroFrom, Highest};
ghost use Rattle.groups.specs.Small.{Groups-prop};

use crate::{count, groups_from, groups_of, is, top};

// A number of at most N groups of three digits, the lowest first, and how many orders hold those that are not 0.
#[derive(Clone, Copy)]
pub struct Number<const N: usize> {
    pub groups: [u16; N],
    pub orders: usize,
    ghost size: { length groups ≡ N },
    ghost small: { Groups groups } by { Groups-prop groups },
    ghost highest: { Highest groups orders },
}

impl<const N: usize> Number<N> {
    // What digits without a leading zero mean.
    pub fn of_digits(s: &[u8]) -> Self
        requires digits { plain s.now ≡ true }
        requires size { length s.now ≤ 3 * N }
        ensures { total result.groups ≡ value s.now }
    {
        Number {
            groups: groups_of(s),
            orders: count(s),
        }
    }

    // A number of at most 20 digits.
    pub fn of(n: u64) -> Self
        requires { 7 ≤ N }
        ensures { total result.groups ≡ n }
    {
        let mut groups = [0u16; N];
        let orders = groups_from(n, &mut groups);
        Number { groups, orders }
    }

    // A number below a thousand.
    pub fn of_group(group: u16) -> Self
        requires { (group < 1000) × (0 < N) }
        ensures { (total result.groups ≡ group) × (result.orders ≡ 1) }
    {
        let mut groups = [0u16; N];
        groups[0] = group;
        Number { groups, orders: 1 }
    }

    // The number with these groups, of which those from m on are 0.
    pub fn of_groups(groups: [u16; N], m: usize) -> Self
        requires small { Groups groups }
        requires zeros { (m ≤ N) × ZeroFrom groups m }
        ensures { result.groups ≡ groups.entry }
    {
        Number {
            groups,
            orders: top(m, &groups),
        }
    }

    // Whether it is k.
    pub fn is(&self, k: u16) -> bool
        requires { (k < 1000) × (0 < N) }
        ensures { result ≡ eqb (total self.now.groups) k }
    {
        is(self.orders, &self.groups, k)
    }
}
