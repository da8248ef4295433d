// Orders and their logs.
ghost use Rattle.cf_history.specs.Laws.{OrdersGiveLogs, LogsHaveOrders};

/// An order of the writers in which each has, batch by batch, as many places as it has rows is one form of a log
/// in which each row stands once. The log is made from the order and the rows, and the order is read off the log.
pub fn valid_orders_give_logs()
    ensures logs { OrdersGiveLogs }
    ensures orders { LogsHaveOrders }
{}
