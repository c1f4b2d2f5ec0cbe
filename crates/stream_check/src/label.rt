// The labels of streams and instances: a name below the label of an instance, and the name of an instance by task and position.
ghost use Rattle.std.specs.Prelude.{◌≡◌, []};
ghost use Rattle.std.specs.Str.{IsAscii};
ghost use Rattle.check_scope.specs.Answers.{ScopeAnswers};
ghost use Rattle.stream_check.specs.Parts as parts;

use check_scope::{CheckFault, copied};
use itoa::Buffer;
use std::alloc::Global;
use tapa_base::Text;

/// A name below an instance: `LABEL$NAME`, and the name alone in the top task, which has no label.
pub(crate) fn below(alloc: Global, label: &Text, name: &Text) -> Result<Text, CheckFault>
    ensures { ScopeAnswers (λ text. text) result [] (parts.below label.now name.now) }
{
    if label.bytes().is_empty() {
        return copied(alloc, name);
    }
    let mut bytes = Vec::new(alloc);
    bytes.extend_from_slice(label.bytes())?;
    bytes.push(b'$')?;
    bytes.extend_from_slice(name.bytes())?;
    Ok(Text::new(bytes))
}

/// `Task$k`.
pub(crate) fn instance_name(alloc: Global, task: &[u8], position: usize) -> Result<Text, CheckFault>
    requires { IsAscii task.now }
    ensures { ScopeAnswers (λ text. text) result [] (parts.instance_name task.now position) }
{
    let mut buffer = Buffer::new();
    let mut bytes = Vec::new(alloc);
    bytes.extend_from_slice(task)?;
    bytes.push(b'$')?;
    bytes.extend_from_slice(buffer.format(position).as_bytes())?;
    Ok(Text::new(bytes))
}
