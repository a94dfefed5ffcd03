// The laws of the messages on one order.
ghost use Rattle.orders.specs.Laws.{OrderLaws};

use book::Terms;

pub fn orders_hold<T: Terms>()
    ensures { OrderLaws T }
{}
