// Faults as text: the number, the layer, and the place if there is one.
use faults::{BytesFault, Flaw, Place, PlanFault, SheetFault};
use std::test::Fail;

#[test]
fn faults_as_text(rt: HostRuntime) -> Result<(), Fail> {
    let heap = rt.alloc();
    let place = Place {
        record: 2,
        byte: 17,
    };
    let cut = BytesFault::Cut(place);
    let flaw = SheetFault::Record(Flaw::WrongSort, place);
    let memory = SheetFault::Memory;
    let below = PlanFault::Sheet(SheetFault::Bytes(cut));
    let short = PlanFault::TooShort;
    assert_eq!(rt;
        format!(in heap; "{cut}")?.as_str(),
        "1 layer bytes record 2 byte 17"
    );
    assert_eq!(rt;
        format!(in heap; "{flaw}")?.as_str(),
        "9 layer sheet record 2 byte 17"
    );
    assert_eq!(rt; format!(in heap; "{memory}")?.as_str(), "0 layer machine");
    assert_eq!(rt;
        format!(in heap; "{below}")?.as_str(),
        "1 layer bytes record 2 byte 17"
    );
    assert_eq!(rt; format!(in heap; "{short}")?.as_str(), "17 layer plan");
    Ok(())
}
