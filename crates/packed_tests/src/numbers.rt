// The numbers of refusals.
use packed::{Fault, Reason};
use std::test::*;

#[test]
fn numbers(rt: HostRuntime) -> Result<(), Fail> {
    let cases = [
        (Reason::BytesEnd, 11),
        (Reason::RowOrder, 22),
        (Reason::Kind, 32),
        (Reason::NotOneTree, 43),
        (Reason::ShortBuffer, 53),
        (Reason::OpenRefused, 65),
    ];
    for (reason, number) in &cases {
        let fault = Fault {
            reason: *reason,
            layer: 0,
            place: 0,
        };
        assert_eq!(rt; fault.number(), *number);
    }
    Ok(())
}
