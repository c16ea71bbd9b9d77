use sheets::fault::{Fault, Layer, Refusal};

const REFUSALS: [(Refusal, u8, Layer); 10] = [
    (Refusal::Ragged, 1, Layer::Input),
    (Refusal::Strange, 2, Layer::Word),
    (Refusal::Misplaced, 3, Layer::Record),
    (Refusal::TooMany, 4, Layer::Record),
    (Refusal::Unknown, 5, Layer::Book),
    (Refusal::Twice, 6, Layer::Book),
    (Refusal::Overtargeted, 7, Layer::Book),
    (Refusal::Idle, 8, Layer::Round),
    (Refusal::Short, 9, Layer::Round),
    (Refusal::Misfit, 10, Layer::Plan),
];

#[test]
fn a_fault_has_its_number_its_place_and_its_layer(rt: HostRuntime) {
    for (refusal, number, layer) in &REFUSALS {
        let fault = Fault::new(*refusal, 11);
        let is_so = fault.refusal().number() == *number && fault.layer() == *layer;
        assert!(rt; is_so && fault.place() == 11, "{}", *number);
    }
}
