// The label in a name, and the names of a label.

ghost use Rattle.std.specs.Prelude.{◌≡◌, ◌++◌, IfSome, IfOk};
ghost use Rattle.std.specs.Str.{IsAscii};
ghost use Rattle.std.specs.Option.{option_copied};
ghost use Rattle.vlog_tree.specs.Labels.{label_in as label_lem, scalar_of as scalar_lem, ack_of as ack_lem, rdata_of as rdata_lem, addr_of as addr_lem};
ghost use Rattle.vlog_tree.specs.Labels.{wdata_of as wdata_lem, we_of as we_lem, din_of as din_lem, m_ack, m_rdata, m_addr, m_wdata, m_we, s_wr, s_rdy};

use std::alloc::{AllocError, Global};
use tapa_base::Text;

// The label in a name, between a prefix and a suffix; it isn't empty.
#[tactic(auto, unfolding(crate::specs::Labels::label_in))]
fn label_in<'a>(front: &[u8], end: &[u8], x: &'a [u8]) -> Option<&'a [u8]>
    ensures value { option_copied result ≡ label_lem front.now end.now x.now }
    ensures ascii { IsAscii x.now → IfSome result (λ l. IsAscii l.now) }
{
    if front.len() <= x.len() && &x[..front.len()] == front {
        let rest = &x[front.len()..];
        if end.len() <= rest.len() && &rest[rest.len() - end.len()..] == end {
            if rest.len() <= end.len() {
                None
            } else {
                Some(&rest[..rest.len() - end.len()])
            }
        } else {
            None
        }
    } else {
        None
    }
}

/// The label of a scalar's port, `v_X`.
#[tactic(auto, unfolding(crate::specs::Labels::scalar_of))]
pub fn scalar_of(x: &Text) -> Option<&[u8]>
    ensures value { option_copied result ≡ scalar_lem x.now }
    ensures ascii { IfSome result (λ l. IsAscii l.now) }
{
    label_in(b"v_", b"", x.bytes())
}

/// The label in `m_X_ack`.
#[tactic(auto, unfolding(crate::specs::Labels::ack_of))]
pub fn ack_of(x: &Text) -> Option<&[u8]>
    ensures value { option_copied result ≡ ack_lem x.now }
    ensures ascii { IfSome result (λ l. IsAscii l.now) }
{
    label_in(b"m_", b"_ack", x.bytes())
}

/// The label in `m_X_rdata`.
#[tactic(auto, unfolding(crate::specs::Labels::rdata_of))]
pub fn rdata_of(x: &Text) -> Option<&[u8]>
    ensures value { option_copied result ≡ rdata_lem x.now }
    ensures ascii { IfSome result (λ l. IsAscii l.now) }
{
    label_in(b"m_", b"_rdata", x.bytes())
}

/// The label in `m_X_addr`.
#[tactic(auto, unfolding(crate::specs::Labels::addr_of))]
pub fn addr_of(x: &Text) -> Option<&[u8]>
    ensures value { option_copied result ≡ addr_lem x.now }
    ensures ascii { IfSome result (λ l. IsAscii l.now) }
{
    label_in(b"m_", b"_addr", x.bytes())
}

/// The label in `m_X_wdata`.
#[tactic(auto, unfolding(crate::specs::Labels::wdata_of))]
pub fn wdata_of(x: &Text) -> Option<&[u8]>
    ensures value { option_copied result ≡ wdata_lem x.now }
    ensures ascii { IfSome result (λ l. IsAscii l.now) }
{
    label_in(b"m_", b"_wdata", x.bytes())
}

/// The label in `m_X_we`.
#[tactic(auto, unfolding(crate::specs::Labels::we_of))]
pub fn we_of(x: &Text) -> Option<&[u8]>
    ensures value { option_copied result ≡ we_lem x.now }
    ensures ascii { IfSome result (λ l. IsAscii l.now) }
{
    label_in(b"m_", b"_we", x.bytes())
}

/// The label in `s_X_din`.
#[tactic(auto, unfolding(crate::specs::Labels::din_of))]
pub fn din_of(x: &Text) -> Option<&[u8]>
    ensures value { option_copied result ≡ din_lem x.now }
    ensures ascii { IfSome result (λ l. IsAscii l.now) }
{
    label_in(b"s_", b"_din", x.bytes())
}

fn joined(alloc: Global, front: &[u8], label: &[u8], end: &[u8]) -> Result<Vec<u8>, AllocError>
    ensures { IfOk result (λ v. v.items ≡ front.now ++ label.now ++ end.now) }
{
    let mut name = front.to_vec(alloc)?;
    name.extend_from_slice(label)?;
    name.extend_from_slice(end)?;
    Ok(name)
}

/// The name `m_X_ack`.
#[tactic(auto, unfolding(crate::specs::Labels::m_ack))]
pub fn ack_name(alloc: Global, label: &[u8]) -> Result<Vec<u8>, AllocError>
    ensures { IfOk result (λ v. v.items ≡ m_ack label.now) }
{
    joined(alloc, b"m_", label, b"_ack")
}

/// The name `m_X_rdata`.
#[tactic(auto, unfolding(crate::specs::Labels::m_rdata))]
pub fn rdata_name(alloc: Global, label: &[u8]) -> Result<Vec<u8>, AllocError>
    ensures { IfOk result (λ v. v.items ≡ m_rdata label.now) }
{
    joined(alloc, b"m_", label, b"_rdata")
}

/// The name `m_X_addr`.
#[tactic(auto, unfolding(crate::specs::Labels::m_addr))]
pub fn addr_name(alloc: Global, label: &[u8]) -> Result<Vec<u8>, AllocError>
    ensures { IfOk result (λ v. v.items ≡ m_addr label.now) }
{
    joined(alloc, b"m_", label, b"_addr")
}

/// The name `m_X_wdata`.
#[tactic(auto, unfolding(crate::specs::Labels::m_wdata))]
pub fn wdata_name(alloc: Global, label: &[u8]) -> Result<Vec<u8>, AllocError>
    ensures { IfOk result (λ v. v.items ≡ m_wdata label.now) }
{
    joined(alloc, b"m_", label, b"_wdata")
}

/// The name `m_X_we`.
#[tactic(auto, unfolding(crate::specs::Labels::m_we))]
pub fn we_name(alloc: Global, label: &[u8]) -> Result<Vec<u8>, AllocError>
    ensures { IfOk result (λ v. v.items ≡ m_we label.now) }
{
    joined(alloc, b"m_", label, b"_we")
}

/// The name `s_X_wr`.
#[tactic(auto, unfolding(crate::specs::Labels::s_wr))]
pub fn wr_name(alloc: Global, label: &[u8]) -> Result<Vec<u8>, AllocError>
    ensures { IfOk result (λ v. v.items ≡ s_wr label.now) }
{
    joined(alloc, b"s_", label, b"_wr")
}

/// The name `s_X_rdy`.
#[tactic(auto, unfolding(crate::specs::Labels::s_rdy))]
pub fn rdy_name(alloc: Global, label: &[u8]) -> Result<Vec<u8>, AllocError>
    ensures { IfOk result (λ v. v.items ≡ s_rdy label.now) }
{
    joined(alloc, b"s_", label, b"_rdy")
}
