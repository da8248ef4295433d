//! What a history of the store is, and in which order rows come into its log: definitions, in specs/, and laws
//! about them, in proofs/. The only code is the function that states the law of orders.
#![tactic(auto)]

mod order;

pub use order::valid_orders_give_logs;
