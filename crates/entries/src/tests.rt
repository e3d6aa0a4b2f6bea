ghost use Rattle.std.specs.Prelude.{nat_lt};
ghost use Rattle.std.proofs.Common.{rules};

use super::*;

#[derive(Clone, Copy)]
struct Weight {
    grams: u8,
}

impl Entry for Weight {
    ghost before = { λ x y. nat_lt x.grams y.grams };

    ghost ranks = { Prim.search rules };

    fn is_before(&self, other: &Weight) -> bool {
        self.grams < other.grams
    }
}

#[test]
fn of_equal_entries_the_lower_place(rt: HostRuntime) {
    let weights = [
        Weight { grams: 5 },
        Weight { grams: 3 },
        Weight { grams: 3 },
    ];
    assert_eq!(rt; first(&weights), Some(1));
}

#[test]
fn none_of_no_entries(rt: HostRuntime) {
    let weights = [Weight { grams: 5 }];
    assert_eq!(rt; first(&weights[..0]), None);
}
