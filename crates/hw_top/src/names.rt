// The names of the top's nets and instances.

ghost use Rattle.std.specs.Prelude.{◌≡◌, ◌++◌, IfOk, codes};
ghost use Rattle.std.specs.Str.{IsAscii};
ghost use Rattle.vlog_tree.specs.Labels.{scalar as scalar_lem, m_ack as ack_lem, m_rdata as rdata_lem, m_addr as addr_lem, m_wdata as wdata_lem, m_we as we_lem};
ghost use Rattle.vlog_tree.specs.Labels.{s_din as din_lem, s_wr as wr_lem, s_rdy as rdy_lem, done as done_lem};
ghost use Rattle.hw_channel_lines.specs.Names.{channel_name as channel_name_lem};
ghost use Rattle.hw_lines.specs.Texts.{task_name as task_name_lem};
ghost use Rattle.hw_top_lines.specs.Names.{s_has as has_lem, s_dout as dout_lem, s_take as take_lem, task_instance as task_instance_lem};
ghost use Rattle.hw_top_lines.specs.Names.{channel_instance as channel_instance_lem, ended_net as ended_lem, waits as waits_lem, bound_net as bound_lem};

use hw_build::{numbered, text};
use std::alloc::{AllocError, Global};
use tapa_base::Text;

// A label after a prefix.
fn fronted(alloc: Global, front: &[u8], label: &Text) -> Result<Text, AllocError>
    requires { IsAscii front.now }
    ensures { IfOk result (λ t. t ≡ front.now ++ label.now) }
{
    let mut bytes = front.to_vec(alloc)?;
    bytes.extend_from_slice(label.bytes())?;
    Ok(Text::new(bytes))
}

// A label between a prefix and a suffix.
fn labelled(alloc: Global, front: &[u8], label: &Text, end: &[u8]) -> Result<Text, AllocError>
    requires front { IsAscii front.now }
    requires end { IsAscii end.now }
    ensures { IfOk result (λ t. t ≡ front.now ++ label.now ++ end.now) }
{
    let mut bytes = front.to_vec(alloc)?;
    bytes.extend_from_slice(label.bytes())?;
    bytes.extend_from_slice(end)?;
    Ok(Text::new(bytes))
}

/// The port of a scalar of the top task.
#[tactic(auto, unfolding(vlog_tree::specs::Labels::scalar))]
pub fn scalar(alloc: Global, name: &Text) -> Result<Text, AllocError>
    ensures { IfOk result (λ t. t ≡ scalar_lem name.now) }
{
    fronted(alloc, b"v_", name)
}

/// The port at which a memory says whether it answers.
#[tactic(auto, unfolding(vlog_tree::specs::Labels::m_ack))]
pub fn ack(alloc: Global, name: &Text) -> Result<Text, AllocError>
    ensures { IfOk result (λ t. t ≡ ack_lem name.now) }
{
    labelled(alloc, b"m_", name, b"_ack")
}

/// The port at which a memory gives a cell.
#[tactic(auto, unfolding(vlog_tree::specs::Labels::m_rdata))]
pub fn rdata(alloc: Global, name: &Text) -> Result<Text, AllocError>
    ensures { IfOk result (λ t. t ≡ rdata_lem name.now) }
{
    labelled(alloc, b"m_", name, b"_rdata")
}

/// The port with the address that a memory is asked for.
#[tactic(auto, unfolding(vlog_tree::specs::Labels::m_addr))]
pub fn addr(alloc: Global, name: &Text) -> Result<Text, AllocError>
    ensures { IfOk result (λ t. t ≡ addr_lem name.now) }
{
    labelled(alloc, b"m_", name, b"_addr")
}

/// The port with what is stored in a memory.
#[tactic(auto, unfolding(vlog_tree::specs::Labels::m_wdata))]
pub fn wdata(alloc: Global, name: &Text) -> Result<Text, AllocError>
    ensures { IfOk result (λ t. t ≡ wdata_lem name.now) }
{
    labelled(alloc, b"m_", name, b"_wdata")
}

/// The port that says whether something is stored in a memory.
#[tactic(auto, unfolding(vlog_tree::specs::Labels::m_we))]
pub fn we(alloc: Global, name: &Text) -> Result<Text, AllocError>
    ensures { IfOk result (λ t. t ≡ we_lem name.now) }
{
    labelled(alloc, b"m_", name, b"_we")
}

/// The wire with the token that is written into a stream.
#[tactic(auto, unfolding(vlog_tree::specs::Labels::s_din))]
pub fn din(alloc: Global, label: &Text) -> Result<Text, AllocError>
    ensures { IfOk result (λ t. t ≡ din_lem label.now) }
{
    labelled(alloc, b"s_", label, b"_din")
}

/// The wire that says whether a token is written into a stream.
#[tactic(auto, unfolding(vlog_tree::specs::Labels::s_wr))]
pub fn wr(alloc: Global, label: &Text) -> Result<Text, AllocError>
    ensures { IfOk result (λ t. t ≡ wr_lem label.now) }
{
    labelled(alloc, b"s_", label, b"_wr")
}

/// The wire that says whether a stream has room.
#[tactic(auto, unfolding(vlog_tree::specs::Labels::s_rdy))]
pub fn rdy(alloc: Global, label: &Text) -> Result<Text, AllocError>
    ensures { IfOk result (λ t. t ≡ rdy_lem label.now) }
{
    labelled(alloc, b"s_", label, b"_rdy")
}

/// The wire that says whether a stream has a token.
#[tactic(auto, unfolding(hw_top_lines::specs::Names::s_has))]
pub fn has(alloc: Global, label: &Text) -> Result<Text, AllocError>
    ensures { IfOk result (λ t. t ≡ has_lem label.now) }
{
    labelled(alloc, b"s_", label, b"_has")
}

/// The wire with the token that a stream has.
#[tactic(auto, unfolding(hw_top_lines::specs::Names::s_dout))]
pub fn dout(alloc: Global, label: &Text) -> Result<Text, AllocError>
    ensures { IfOk result (λ t. t ≡ dout_lem label.now) }
{
    labelled(alloc, b"s_", label, b"_dout")
}

/// The wire that says whether the token of a stream is taken.
#[tactic(auto, unfolding(hw_top_lines::specs::Names::s_take))]
pub fn take(alloc: Global, label: &Text) -> Result<Text, AllocError>
    ensures { IfOk result (λ t. t ≡ take_lem label.now) }
{
    labelled(alloc, b"s_", label, b"_take")
}

/// The instance of a task, by its label.
#[tactic(auto, unfolding(hw_top_lines::specs::Names::task_instance))]
pub fn task_instance(alloc: Global, label: &Text) -> Result<Text, AllocError>
    ensures { IfOk result (λ t. t ≡ task_instance_lem label.now) }
{
    fronted(alloc, b"t_", label)
}

/// The instance of a channel, by the label of its stream.
#[tactic(auto, unfolding(hw_top_lines::specs::Names::channel_instance))]
pub fn channel_instance(alloc: Global, label: &Text) -> Result<Text, AllocError>
    ensures { IfOk result (λ t. t ≡ channel_instance_lem label.now) }
{
    fronted(alloc, b"c_", label)
}

/// The module of a task, by the task's name.
pub fn task_name(alloc: Global, name: &Text) -> Result<Text, AllocError>
    ensures { IfOk result (λ t. t ≡ task_name_lem name.now) }
{
    fronted(alloc, b"t_", name)
}

/// The outermost module of a channel for tokens of `bits` bits, by its depth and its added latency.
#[tactic(auto, unfolding(hw_channel_lines::specs::Names::channel_name, hw_build::specs::Trees::numbered))]
pub fn channel_name(alloc: Global, bits: u32, depth: u32, late: u32) -> Result<Text, AllocError>
    ensures { IfOk result (λ t. t ≡ channel_name_lem bits depth late) }
{
    let front = numbered(alloc, b"channel", bits)?;
    let name = numbered(alloc, front.bytes(), depth)?;
    numbered(alloc, name.bytes(), late)
}

/// The net that says whether an instance has ended.
#[tactic(auto, unfolding(hw_top_lines::specs::Names::ended_net))]
pub fn ended_net(alloc: Global, i: u32) -> Result<Text, AllocError>
    ensures { IfOk result (λ t. t ≡ ended_lem i) }
{
    numbered(alloc, b"ended", i)
}

/// The prefix of the names of the nets that say which instances, but for the detached ones, are not done.
#[tactic(auto, unfolding(hw_top_lines::specs::Names::waits))]
pub fn waits(alloc: Global) -> Result<Text, AllocError>
    ensures { IfOk result (λ t. t ≡ waits_lem) }
{
    text(alloc, b"waits")
}

/// The port that says that all is done.
#[tactic(auto, unfolding(vlog_tree::specs::Labels::done))]
pub fn done(alloc: Global) -> Result<Text, AllocError>
    ensures { IfOk result (λ t. t ≡ done_lem) }
{
    text(alloc, b"done")
}

/// The net with the value of scalar parameter `p` of instance `i` after `steps` conversions.
#[tactic(auto, unfolding(hw_top_lines::specs::Names::bound_net))]
pub(crate) fn bound_net(alloc: Global, i: u32, p: u32, steps: u32) -> Result<Text, AllocError>
    ensures { IfOk result (λ t. t ≡ bound_lem i p steps) }
{
    let instance = numbered(alloc, b"b", i)?;
    let parameter = numbered(alloc, instance.bytes(), p)?;
    numbered(alloc, parameter.bytes(), steps)
}
