// The rules of the streams that an upper-level task declares: their names, kinds and depths.
ghost use Rattle.std.specs.Prelude.{◌≡◌, ◌<◌, [], length, map};
ghost use Rattle.tapa_syntax.specs.Trees as tree;
ghost use Rattle.check_scope.specs.Answers.{ScopeAnswers};
ghost use Rattle.check_scope.specs.Faults.{doubled};
ghost use Rattle.check_upper.specs.Signatures.{channels_of};
ghost use Rattle.check_upper.specs.Uppers as upper;

use crate::task::Channel;
use check_expression::count_in;
use check_scope::{CheckFault, Entity, Scope, copied, number_of};
use std::alloc::Global;
use tapa_base::Kind;
use tapa_syntax::{Count, Name, StreamDeclaration};

/// The depth of a stream that is declared without one.
const USUAL_DEPTH: u32 = 2;

/// The names in scope, and the streams that the task has declared.
#[derive(Drop)]
pub(crate) struct Channels<'a> {
    pub scope: Scope<'a>,
    pub streams: Vec<Channel>,
}

fn depth_of(scope: &Scope, depth: &Option<Count>) -> Result<u32, CheckFault>
    ensures { ScopeAnswers (λ n. n) result (upper.depth_faults scope.now (tree.option_of tree.count_of depth.now)) (upper.depth_of scope.now (tree.option_of tree.count_of depth.now)) }
{
    match depth {
        None => Ok(USUAL_DEPTH),
        Some(count) => count_in(scope, count),
    }
}

impl<'a> Channels<'a> {
    fn channel(
        &mut self,
        alloc: Global,
        kind: Kind,
        depth: u32,
        name: &Name,
    ) -> Result<(), CheckFault>
        requires { 1 < length self.old.scope }
        ensures count { length self.new.scope ≡ length self.old.scope }
        ensures value { ScopeAnswers (λ x. channels_of self.new) result (doubled self.old.scope name.now) (upper.with_channel kind depth (channels_of self.old) name.now) }
    {
        let number = number_of(self.streams.len())?;
        self.scope
            .declare(alloc, name, Entity::Channel { kind, number })?;
        self.streams.push(Channel {
            name: copied(alloc, &name.text)?,
            place: name.place,
            kind,
            depth,
        })?;
        Ok(())
    }

    fn channels(
        &mut self,
        alloc: Global,
        kind: Kind,
        depth: u32,
        names: &[Name],
    ) -> Result<(), CheckFault>
        requires { 1 < length self.old.scope }
        ensures count { length self.new.scope ≡ length self.old.scope }
        ensures value { ScopeAnswers (λ x. channels_of self.new) result (upper.channels_faults kind depth (channels_of self.old) names.now)
            (upper.with_channels kind depth (channels_of self.old) names.now) }
    {
        for name in names {
            self.channel(alloc, kind, depth, name)?;
        }
        Ok(())
    }

    fn stream(&mut self, alloc: Global, stream: &StreamDeclaration) -> Result<(), CheckFault>
        requires { 1 < length self.old.scope }
        ensures count { length self.new.scope ≡ length self.old.scope }
        ensures value { ScopeAnswers (λ x. channels_of self.new) result (upper.stream_faults (channels_of self.old) (tree.stream_of stream.now))
            (upper.after_stream (channels_of self.old) (tree.stream_of stream.now)) }
    {
        let depth = depth_of(&self.scope, &stream.depth)?;
        self.channels(alloc, stream.kind, depth, &stream.names)
    }

    /// The streams of a task.
    pub(crate) fn streams(
        &mut self,
        alloc: Global,
        streams: &[StreamDeclaration],
    ) -> Result<(), CheckFault>
        requires { 1 < length self.old.scope }
        ensures { ScopeAnswers (λ x. channels_of self.new) result (upper.streams_faults (channels_of self.old) (map tree.stream_of streams.now))
            (upper.after_streams (channels_of self.old) (map tree.stream_of streams.now)) }
    {
        for stream in streams {
            self.stream(alloc, stream)?;
        }
        Ok(())
    }
}
