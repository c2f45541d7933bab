//! Bytes that are no record's spelling.

use crate::bytes::Reading::{Torn, Unknown};
use crate::bytes::told;

#[test]
fn cut_or_changed(rt: HostRuntime) {
    assert_eq!(rt; told(rt, &[]), Torn(0));
    assert_eq!(rt; told(rt, &[0]), Unknown);
    assert_eq!(rt; told(rt, &[8, 1]), Unknown);
    assert_eq!(rt; told(rt, &[1, 0]), Torn(1));
    assert_eq!(rt; told(rt, &[4]), Torn(1));
    assert_eq!(rt; told(rt, &[4, 0]), Torn(1));
    assert_eq!(rt; told(rt, &[4, 9]), Torn(1));
    // A client, a life, a number and a clock out of their ranges.
    assert_eq!(rt;
        told(rt, &[3, 16, 0, 0, 0, 1, 0, 0, 0, 1, 0, 0, 0, 0, 0, 0, 0, 1]),
        Torn(1)
    );
    assert_eq!(rt;
        told(rt, &[3, 0, 0, 0, 0, 0, 0, 0, 0, 1, 0, 0, 0, 0, 0, 0, 0, 1]),
        Torn(2)
    );
    assert_eq!(rt;
        told(rt, &[3, 0, 0, 0, 0, 1, 0, 0, 0, 0, 0, 0, 0, 0, 0, 0, 0, 1]),
        Torn(6)
    );
    assert_eq!(rt;
        told(rt, &[3, 0, 0, 0, 0, 1, 0, 0, 0, 1, 0, 0, 0, 0, 0, 0, 0, 0]),
        Torn(10)
    );
    // The end within a field, and a byte behind the last one.
    assert_eq!(rt;
        told(rt, &[3, 0, 0, 0, 0, 1, 0, 0, 0, 1, 0, 0, 0]),
        Torn(13)
    );
    assert_eq!(rt;
        told(
            rt,
            &[3, 0, 0, 0, 0, 1, 0, 0, 0, 1, 0, 0, 0, 0, 0, 0, 0, 1, 0]
        ),
        Torn(18)
    );
}

#[test]
fn out_of_order(rt: HostRuntime) {
    // Equal locks, and own lines with one number.
    assert_eq!(rt;
        told(
            rt,
            &[
                2, 0, 0, 0, 0, 1, 0, 0, 0, 1, 1, 0, 2, 0, 3, 0, 3, 0, 0, 0, 0, 0
            ]
        ),
        Torn(16)
    );
    assert_eq!(rt;
        told(
            rt,
            &[
                2, 0, 0, 0, 0, 1, 0, 0, 0, 1, 1, 0, 0, 2, 1, 0, 3, 1, 0, 4, 0, 0, 0, 0
            ]
        ),
        Torn(17)
    );
}
