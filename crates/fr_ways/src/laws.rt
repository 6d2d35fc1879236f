//! The laws of tables of ways. Each clause is a law of `specs/Laws.antt`, proved. The functions do nothing.

ghost use Rattle.fr_ways.specs.Laws.{PartsAddNoCycle, LinksMakeNoCycle, WalksAreShort, EveryWayArrives, FailoverIsSafe};
ghost use Rattle.fr_ways.specs.Laws.{FirstIsNearer, FirstWaysAreShortest};
ghost use Rattle.fr_ways.specs.Laws.{StartsAsOld, PushIsOneMore, NoCycleIsNew, NeverCycles, PushedIsRight};
ghost use Rattle.fr_ways.specs.Laws.{ComesTwiceAtMost, BeginningIsClosed, WavesAreClosed, NextMayBeMixed, WaveIsReady};
ghost use Rattle.fr_ways.specs.Laws.{EndsAsNew, OrderExists, OrderIsUnique};
ghost use Rattle.fr_ways.specs.Laws.{ShrinkingIsOld, GrowingIsNew, PhasesMakeNoCycle, LoserIsDone, OnePhaseIsEnough};

/// Where tables without cycles come from: their ways follow the links of an acyclic network, or they are parts of such
/// tables. In such a table every walk is short. It arrives, if each node on it has a way. If ways fail, a packet still
/// visits no node twice, and is lost only at a node all of whose ways have failed.
pub fn table_law()
    ensures parts { PartsAddNoCycle }
    ensures links { LinksMakeNoCycle }
    ensures short { WalksAreShort }
    ensures arrives { EveryWayArrives }
    ensures failover { FailoverIsSafe }
{}

/// If the ways of each node are listed by distance, first ways lead along shortest walks. Each first way is one step
/// nearer.
pub fn nearest_law()
    ensures nearer { FirstIsNearer }
    ensures shortest { FirstWaysAreShortest }
{}

/// If the new table has no cycle, pushing nodes that are closed downstream makes no new cycle. In whatever order
/// pushes are made, each cycle of the mixed table was in the old table. If the old table had no cycle either, a
/// packet that moves meanwhile, and takes any way at each step, visits no node more than twice.
pub fn push_law()
    ensures start { StartsAsOld }
    ensures step { PushIsOneMore }
    ensures cycles { NoCycleIsNew }
    ensures cycle_free { NeverCycles }
    ensures right { PushedIsRight }
    ensures twice { ComesTwiceAtMost }
{}

/// The pushed nodes of a push order are closed downstream at each moment. So they are even if the nodes of one wave
/// are pushed in any order. The last push makes the new table. Two tables have exactly one push order.
pub fn wave_law()
    ensures beginnings { BeginningIsClosed }
    ensures waves { WavesAreClosed }
    ensures mixed { NextMayBeMixed }
    ensures wave_ready { WaveIsReady }
    ensures whole { EndsAsNew }
    ensures exists { OrderExists }
    ensures unique { OrderIsUnique }
{}

/// From one table without a cycle to another in two phases, each in any order: first routers shrink, then they grow. At
/// each moment the table is a part of the old or of the new one, so it has no cycle.
pub fn phase_law()
    ensures shrinking { ShrinkingIsOld }
    ensures growing { GrowingIsNew }
    ensures cycle_free { PhasesMakeNoCycle }
    ensures losers { LoserIsDone }
    ensures one_phase { OnePhaseIsEnough }
{}
