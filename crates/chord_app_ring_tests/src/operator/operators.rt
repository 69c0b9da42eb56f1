//! An operator of a ring that is a plain value. It notes what it is asked.

use super::sights::whole_ring;
use chord_app_operator::{
    CrashRefusal, CrashRequest, HealthSight, Holder, JoinRefusal, JoinRequest, LeaveRefusal,
    Operator, PageState, Pair, PairsPage, PairsRequest, RescueRefusal, RingSight,
};
use chord_ident::Id;
use std::alloc::{AllocError, Global};

/// What it answers to a join, a leave, a crash and a rescue is set before; all else is fixed.
#[derive(Drop)]
pub struct RingValue {
    /// A letter for each question: s, h, j, l, c, r, o (holder), p, t (stop).
    pub asked: Vec<u8>,
    pub join: Option<JoinRequest>,
    pub left: Option<u64>,
    pub crash: Option<CrashRequest>,
    pub rescued: Option<u64>,
    pub pairs: Option<PairsRequest>,
    pub held: Option<Id>,
    pub health: HealthSight,
    pub joined: Result<u64, JoinRefusal>,
    pub leaves: Result<(), LeaveRefusal>,
    pub crashes: Result<(), CrashRefusal>,
    pub rescues: Result<(), RescueRefusal>,
    pub holder: Holder,
    pub has_memory: bool,
}

impl RingValue {
    /// One that does all it is asked for.
    pub fn new(alloc: Global) -> RingValue {
        RingValue {
            asked: Vec::new(alloc),
            join: None,
            left: None,
            crash: None,
            rescued: None,
            pairs: None,
            held: None,
            health: HealthSight {
                has_node: true,
                has_caller: true,
                is_stopped: false,
            },
            joined: Ok(4),
            leaves: Ok(()),
            crashes: Ok(()),
            rescues: Ok(()),
            holder: Holder::Node(3),
            has_memory: true,
        }
    }

    fn note(&mut self, letter: u8) {
        if self.asked.push(letter).is_err() {
            self.has_memory = false;
        }
    }
}

fn page(alloc: Global) -> Result<PairsPage, AllocError> {
    let mut pairs = Vec::new(alloc);
    pairs.push(Pair {
        key: b"abc".to_vec(alloc)?,
        value: b"x".to_vec(alloc)?,
    })?;
    pairs.push(Pair {
        key: Vec::new(alloc),
        value: b"\x00\xff".to_vec(alloc)?,
    })?;
    Ok(PairsPage {
        pairs,
        next: Some(Id::new(255)),
        state: PageState::Held,
    })
}

impl Operator for RingValue {
    ghost answers = { λ _ _ _ _. Unit {0} };

    fn sight(&mut self, alloc: Global) -> Result<RingSight, AllocError> {
        self.note(b's');
        if !self.has_memory {
            return Err(AllocError);
        }
        whole_ring(alloc)
    }

    fn health(&mut self) -> HealthSight {
        self.note(b'h');
        self.health
    }

    fn join(&mut self, request: JoinRequest) -> Result<u64, JoinRefusal> {
        self.note(b'j');
        self.join = Some(request);
        self.joined
    }

    fn leave(&mut self, node: u64) -> Result<(), LeaveRefusal> {
        self.note(b'l');
        self.left = Some(node);
        self.leaves
    }

    fn crash(&mut self, request: CrashRequest) -> Result<(), CrashRefusal> {
        self.note(b'c');
        self.crash = Some(request);
        self.crashes
    }

    fn rescue(&mut self, node: u64) -> Result<(), RescueRefusal> {
        self.note(b'r');
        self.rescued = Some(node);
        self.rescues
    }

    fn holder(&mut self, id: Id) -> Holder {
        self.note(b'o');
        self.held = Some(id);
        self.holder
    }

    fn pairs(&mut self, alloc: Global, request: PairsRequest) -> Result<PairsPage, AllocError> {
        self.note(b'p');
        self.pairs = Some(request);
        page(alloc)
    }

    fn stop(&mut self) {
        self.note(b't');
    }
}
