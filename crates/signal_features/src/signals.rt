use preorder::List;

/// A speed sign.
#[derive(Clone, Copy, Debug, PartialEq, Eq)]
pub struct SpeedSign {
    /// Below `PAST_IDS`. Signs may have one id: the first of them counts.
    pub id: u64,
    /// In mm/s, 0 to `MAX_SPEED`.
    pub limit: i64,
}

/// A part of a light's cycle.
#[derive(Clone, Copy, Debug, PartialEq, Eq)]
pub struct Phase {
    /// How long it lasts, 1 to `MAX_PHASE_TICKS` ticks.
    pub ticks: u32,
    /// Whether the light is red.
    pub red: bool,
}

/// A light, whose phases come one after the other, over and over.
#[derive(Drop)]
pub struct Light {
    /// Below `PAST_IDS`. Lights may have one id: the first of them counts.
    pub id: u64,
    /// 1 to `MAX_PHASES`.
    pub phases: List<Phase>,
    /// The tick at which the first phase begins, at most `MAX_TICK`.
    pub offset: u32,
}

/// The signals that a lanelet refers to.
#[derive(Drop)]
pub struct SignalUse {
    /// The lanelet's id.
    pub lanelet: u64,
    /// Ids of signs that there are.
    pub signs: List<u64>,
    /// Ids of lights that there are.
    pub lights: List<u64>,
}

/// The speed signs and lights of a scenario.
#[derive(Drop)]
pub struct Signals {
    /// At most `MAX_SIGNS`, in document order.
    pub signs: List<SpeedSign>,
    /// At most `MAX_LIGHTS`, in document order.
    pub lights: List<Light>,
    /// One for each lanelet, in the scenario's order.
    pub uses: List<SignalUse>,
}
