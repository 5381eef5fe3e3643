// How many groups a stage may hold, and how many columns an order may read.
use crate::stages::{grow, numbers};
use orders::NumberOrder;

#[test]
fn groups_at_the_limit(rt: HostRuntime) {
    let mut stage = numbers();
    let totals = [(257, Err(6)), (256, Ok(())), (255, Err(10)), (256, Ok(()))];
    for (total, answer) in totals {
        assert_eq!(rt; grow(&mut stage, 1, total), answer, "total {total}");
    }
}

#[test]
fn order_columns_at_the_limit(rt: HostRuntime) {
    let mut stage = numbers();
    for (count, answer) in [(0, Err(4)), (2, Err(4)), (4, Err(4)), (1, Ok(()))] {
        assert_eq!(rt; grow(&mut stage, count, 1), answer, "count {count}");
    }
}

#[test]
fn order_columns_of_an_order(rt: HostRuntime) {
    for (count, fits) in [(0, false), (1, true), (3, true), (4, false)] {
        assert_eq!(rt; NumberOrder::check(count).is_ok(), fits, "count {count}");
    }
}
