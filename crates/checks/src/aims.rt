// A drawn call, aimed by what the plain list has: where the index is emptied, a delete is of a held ticket (few drawn tickets would be held by
// chance), and lists come once there is none.
use crate::draws;
use crate::draws::{Call, Kind};
use crate::model::Model;

// Draws a run's call number i, on so many nodes, with these slots reading.
pub fn draw_call(model: &Model, x: u32, i: u64, nodes: u32, reading: u32) -> Call {
    let call = draws::draw_call(x, i, nodes, reading, model.held() == 0);
    if (call.kind != Kind::Delete) | !draws::emptying(i, nodes) {
        return call;
    }
    match model.listed_from(call.ticket) {
        Some(ticket) => draws::with_ticket(call, ticket, nodes),
        None => call,
    }
}
