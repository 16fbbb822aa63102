// What lines ask for.
ghost use Rattle.std.specs.Prelude.{◌≡◌};

#[derive(Clone, Copy, PartialEq, Eq)]
pub enum Kind {
    Open,
    Call(CallKind),
    Read(ReadKind),
}

// The calls on a day that is open.
#[derive(Clone, Copy, PartialEq, Eq)]
pub enum CallKind {
    Direction,
    Profile,
    // With its code.
    Party([u8; 16]),
    Offer(CapacityKind),
    Bid,
    Nominate,
    Match,
}

#[derive(Clone, Copy, PartialEq, Eq)]
pub enum ReadKind {
    Left(CapacityKind),
    Right,
    Confirmed,
}

// What the number of an offer is of, and that of a read of what is left, as the line says in a word. The number comes with the others.
#[derive(Clone, Copy, PartialEq, Eq)]
pub enum CapacityKind {
    Direction,
    Profile,
}

impl Kind {
    // The same of a profile, where a line names a direction or a profile.
    pub fn of_profile(self) -> Kind
        ensures offer { (of : CapacityKind) → self ≡ Kind.Call (CallKind.Offer of) → result ≡ Kind.Call (CallKind.Offer CapacityKind.Profile) }
        ensures left { (of : CapacityKind) → self ≡ Kind.Read (ReadKind.Left of) → result ≡ Kind.Read (ReadKind.Left CapacityKind.Profile) }
    {
        match self {
            Kind::Call(CallKind::Offer(_)) => Kind::Call(CallKind::Offer(CapacityKind::Profile)),
            Kind::Read(ReadKind::Left(_)) => Kind::Read(ReadKind::Left(CapacityKind::Profile)),
            other => other,
        }
    }
}
