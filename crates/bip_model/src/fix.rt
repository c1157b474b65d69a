//! Nodes of a search, as what each makes of each candidate.
ghost use Rattle.std.specs.Prelude.{◌≡◌, ◌≤◌, true, map, replicate};
ghost use Rattle.adv_base.specs.Configs as configs;
ghost use Rattle.adv_base.specs.Nodes as nodes;
ghost use Rattle.adv_base.specs.declared.limits.TheConstants.{MOST_CANDIDATES};
ghost use Rattle.bip_model.specs.Proves.{free_node};
ghost use Rattle.bip_model.specs.declared.fix.State.TheVariants.{Free};
ghost use Rattle.bip_model.specs.Trees as trees;
ghost use Rattle.bip_model.specs.Views as views;

use adv_base::Config;
use adv_base::limits::MOST_CANDIDATES;

/// What a node of a search makes of a candidate.
#[derive(Clone, Copy, Debug, PartialEq, Eq)]
pub enum State {
    /// Below the node a configuration may have it or not.
    Free,
    /// Each configuration below the node has it.
    In,
    /// None has it.
    Out,
}

/// A node of a search: a state for each candidate. Candidates are counted from 1, states from 0; those past the candidates
/// are free.
#[derive(Clone, Copy, Debug)]
pub struct Fix {
    pub state: [State; MOST_CANDIDATES],
}

/// Whether a candidate is in.
pub fn is_in(state: State) -> bool
    ensures { result ≡ views.is_in state }
{
    match state {
        State::In => true,
        State::Free | State::Out => false,
    }
}

/// Whether it is out.
pub fn is_out(state: State) -> bool
    ensures { result ≡ views.is_out state }
{
    match state {
        State::Out => true,
        State::Free | State::In => false,
    }
}

impl Fix {
    /// The node at which each candidate is free.
    pub fn free() -> Fix
        ensures node { views.node_of result ≡ free_node }
        ensures states { result.state ≡ replicate MOST_CANDIDATES Free }
    {
        Fix {
            state: [State::Free; MOST_CANDIDATES],
        }
    }

    /// The node with the state of one candidate written.
    pub fn with(&self, number: u16, state: State) -> Fix
        requires some { 1 ≤ number }
        requires within { number ≤ MOST_CANDIDATES }
        ensures { result ≡ views.with_state self.now number state }
    {
        let mut next = *self;
        next.state[number as usize - 1] = state;
        next
    }

    /// The side of a branch on a free candidate where it is in.
    pub fn in_side(&self, number: u16) -> Fix
        requires some { 1 ≤ number }
        requires within { number ≤ MOST_CANDIDATES }
        requires free { nodes.is_free (views.node_of self.now) number ≡ true }
        ensures { views.node_of result ≡ trees.in_side (views.node_of self.now) number }
    {
        self.with(number, State::In)
    }

    /// The side where it is out.
    pub fn out_side(&self, number: u16) -> Fix
        requires some { 1 ≤ number }
        requires within { number ≤ MOST_CANDIDATES }
        requires free { nodes.is_free (views.node_of self.now) number ≡ true }
        ensures { views.node_of result ≡ trees.out_side (views.node_of self.now) number }
    {
        self.with(number, State::Out)
    }

    /// What the node makes of the candidate of a number; one that there can't be is free.
    pub fn state_of(&self, number: u16) -> State
        ensures { result ≡ views.state_of self.now number }
    {
        if number == 0 || number as usize > MOST_CANDIDATES {
            return State::Free;
        }
        self.state[number as usize - 1]
    }

    /// Whether a candidate is in.
    pub fn is_in(&self, number: u16) -> bool
        ensures { result ≡ configs.has_candidate (views.node_of self.now).inside number }
    {
        is_in(self.state_of(number))
    }

    /// Whether a candidate is free.
    pub fn is_free(&self, number: u16) -> bool
        ensures { result ≡ nodes.is_free (views.node_of self.now) number }
    {
        let state = self.state_of(number);
        !is_in(state) && !is_out(state)
    }

    /// The configuration of the candidates that are in.
    pub fn inside(&self) -> Config
        ensures { result ≡ (views.node_of self.now).inside }
    {
        let mut on = [false; MOST_CANDIDATES];
        for a in 0..MOST_CANDIDATES {
            on[a] = is_in(self.state[a]);
        }
        Config { on }
    }

    /// That of those that are out.
    pub fn outside(&self) -> Config
        ensures { result ≡ (views.node_of self.now).outside }
    {
        let mut on = [false; MOST_CANDIDATES];
        for a in 0..MOST_CANDIDATES {
            on[a] = is_out(self.state[a]);
        }
        Config { on }
    }
}
