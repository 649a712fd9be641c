use crate::rule::Hand;
use crossbeam_queue::Pass;
use std::marker::Model;
use wire_base::Parcel;

/// The right of one thread to put, with what was put by it. It has no bytes.
#[derive(Drop)]
pub struct PutPass {
    pub(crate) pass: Pass<Parcel, Hand>,
}

impl Model for PutPass {
    ghost use Rattle.mem_queue.specs.Known.{Known};
    ghost use Rattle.mem_queue.specs.Hand.{IsPuttingPass, known_of_puts};

    ghost Value = { Known };

    ghost view = { λ p. known_of_puts p.pass };

    ghost invariant = { λ p. IsPuttingPass p.pass };
}

/// The right of one thread to take, with what was taken by it. It has no bytes.
#[derive(Drop)]
pub struct TakePass {
    pub(crate) pass: Pass<Parcel, Hand>,
}

impl Model for TakePass {
    ghost use Rattle.mem_queue.specs.Known.{Known};
    ghost use Rattle.mem_queue.specs.Hand.{IsTakingPass, known_of_takes};

    ghost Value = { Known };

    ghost view = { λ p. known_of_takes p.pass };

    ghost invariant = { λ p. IsTakingPass p.pass };
}
