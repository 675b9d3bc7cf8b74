ghost use Rattle.std.specs.Prelude.{◌≡◌};
ghost use Rattle.scenario_xml.specs.Faults.{word, from_markup};
ghost use Rattle.scenario_xml.specs.declared.fault.ScenarioFault.TheVariants as faults;

use element_tree::MarkupFault;
use preorder::NoMemory;

/// The element or attribute that was looked for.
#[derive(Clone, Copy, Debug, PartialEq, Eq)]
pub enum Wanted {
    /// The root's attribute `commonRoadVersion`.
    CommonRoadVersion,
    /// The root's attribute `timeStepSize`, in seconds.
    TimeStepSize,
    /// The attribute `id` of a lanelet, an obstacle or a planning problem.
    Id,
    /// The attribute `ref` of an element that refers to a lanelet.
    Ref,
    /// A lanelet's element `leftBound`.
    LeftBound,
    /// A lanelet's element `rightBound`.
    RightBound,
    /// The element `x` of a point or a center, in metres.
    X,
    /// The element `y` of a point or a center, in metres.
    Y,
    /// An obstacle's element `shape`.
    Shape,
    /// The element `initialState` of an obstacle or a planning problem.
    InitialState,
    /// A rectangle's element `length`, in metres.
    Length,
    /// A rectangle's element `width`, in metres.
    Width,
    /// A circle's element `radius`, in metres.
    Radius,
    /// A state's element `position`; of a goal whose `position` holds no region that is read, a
    /// region.
    Position,
    /// The element `point` of a state's position.
    Point,
    /// The element `exact` of a state's orientation, velocity or time.
    Exact,
    /// The element `time` of a state of a moving obstacle, or of a goal.
    Time,
    /// A planning problem's element `goalState`.
    GoalState,
    /// The element `intervalStart` of a span without `exact`.
    IntervalStart,
    /// The element `intervalEnd` of a span without `exact`.
    IntervalEnd,
    /// The element `role` of an `obstacle`, which version 2018b has.
    Role,
}

/// What there are too many of.
#[derive(Clone, Copy, Debug, PartialEq, Eq)]
pub enum Kind {
    /// More lanelets than `MAX_LANELETS`.
    Lanelet,
    /// More obstacles of all names together than `MAX_OBSTACLES`.
    Obstacle,
    /// More planning problems than `MAX_PROBLEMS`.
    Problem,
    /// More goals of one planning problem than `MAX_GOALS`.
    Goal,
    /// More regions of one goal than `MAX_REGIONS`.
    Region,
}

/// Why a document is no scenario. A place is that of an element's `<`, counted in bytes from the
/// first; an id is a number below `PAST_IDS`. The limits are those of `scenario_model`.
#[derive(Clone, Copy, Debug, PartialEq, Eq)]
pub enum ScenarioFault {
    /// The document is not of the markup's form. It never holds `NoMemory`.
    Markup(MarkupFault),
    /// The root is another element than `commonRoad`.
    WrongRoot,
    /// The version is another than `2020a` and `2018b`.
    WrongVersion,
    /// The element at this place lacks it.
    Missing(Wanted, usize),
    /// The element at this place holds no number or one out of its range, or its attribute is no
    /// id.
    BadNumber(usize),
    /// An earlier element of the same group has the id. The groups are the lanelets, the obstacles
    /// and the planning problems.
    DuplicateId(u64),
    /// A goal's region names a lanelet that the document lacks.
    UnknownRef(u64),
    /// A shape of the obstacle or problem with this id is out of its limits, the obstacle has no
    /// shape, or its shapes have too many corners.
    BadShape(u64),
    /// A bound of the lanelet with this id has not 2 to `MAX_BOUND_POINTS` points.
    BadBound(u64),
    /// An element that would hide an obstacle if it were skipped, or a `role` that is neither
    /// `static` nor `dynamic`.
    Unsupported(usize),
    /// There is no planning problem.
    NoProblem,
    /// One more of its kind, where there are as many before it as there may be.
    TooMany(Kind),
    /// Memory could not be had.
    NoMemory,
}

impl From<NoMemory> for ScenarioFault {
    ghost from_gives = { λ _ e. e ≡ faults.NoMemory };

    fn from(_error: NoMemory) -> ScenarioFault {
        ScenarioFault::NoMemory
    }
}

impl From<MarkupFault> for ScenarioFault {
    ghost from_gives = { λ f e. e ≡ from_markup f };

    fn from(error: MarkupFault) -> ScenarioFault {
        match error {
            MarkupFault::NoMemory => ScenarioFault::NoMemory,
            fault => ScenarioFault::Markup(fault),
        }
    }
}

impl Wanted {
    /// The name of the element or attribute.
    pub fn name(self) -> &'static [u8]
        ensures { result.now ≡ word self }
    {
        match self {
            Wanted::CommonRoadVersion => b"commonRoadVersion",
            Wanted::TimeStepSize => b"timeStepSize",
            Wanted::Id => b"id",
            Wanted::Ref => b"ref",
            Wanted::LeftBound => b"leftBound",
            Wanted::RightBound => b"rightBound",
            Wanted::X => b"x",
            Wanted::Y => b"y",
            Wanted::Shape => b"shape",
            Wanted::InitialState => b"initialState",
            Wanted::Length => b"length",
            Wanted::Width => b"width",
            Wanted::Radius => b"radius",
            Wanted::Position => b"position",
            Wanted::Point => b"point",
            Wanted::Exact => b"exact",
            Wanted::Time => b"time",
            Wanted::GoalState => b"goalState",
            Wanted::IntervalStart => b"intervalStart",
            Wanted::IntervalEnd => b"intervalEnd",
            Wanted::Role => b"role",
        }
    }
}
