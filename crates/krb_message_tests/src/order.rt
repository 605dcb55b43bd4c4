//! The order of records, without frames.

use crate::peers_asserts::assert_same;
use krb_base::Bytes;
use krb_peers::{Order, OrderRefusal, Record};

#[test]
fn numbers_one_after_another(rt: HostRuntime) {
    let text = Record::Text(Bytes::new(Vec::new(rt.alloc())));
    let mut order = Order::new(7);
    let offers = [
        (7, &text, Ok(()), 8),
        (7, &text, Err(OrderRefusal::BadOrder), 8),
        (9, &text, Err(OrderRefusal::BadOrder), 8),
        (8, &text, Ok(()), 9),
        (9, &Record::Close, Ok(()), 10),
        (10, &text, Err(OrderRefusal::AfterClose), 10),
    ];
    assert_same(&rt, (order.expected(), order.closed()), (7, false));
    for (number, record, answer, then) in offers {
        assert_same(
            &rt,
            (number, order.accept(number, record)),
            (number, answer),
        );
        assert_same(&rt, (order.expected(), order.closed()), (then, then == 10));
    }
}
