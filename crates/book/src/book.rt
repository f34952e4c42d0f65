// The book of one stock, under its own number.
use resting::orders::OpenOrders;

pub mod changes;
pub mod ends;
pub mod enters;
pub mod looks;
mod moves;
pub mod replies;
pub mod works;

#[derive(Drop)]
pub struct Book {
    id: u32,
    orders: OpenOrders,
}
