//! What the words of a stage set, and the tool that they mean.

ghost use Rattle.std.specs.Prelude.{◌≡◌, ◌++◌, ◌∷◌, [], List, IfOk, IfErr, OnOk, Some, None, true, false};
ghost use Rattle.std.specs.Prelude.{unwrap_or};
ghost use Rattle.std.specs.List.{slice_index_or};
ghost use Rattle.pnm_image.specs.Texts.{decimal_value};
ghost use Rattle.pnm_tools.specs.Channel.{picks};
ghost use Rattle.pnm_chain.specs.Options.{factor_by, has_scale, has_three, offset_value, spells_extent, spells_offset};
ghost use Rattle.pnm_chain.specs.Options.{tool_rule};
ghost use Rattle.pnm_chain.specs.declared.chain_text.ChainKind.TheVariants.{BadValue, Memory};
ghost use Rattle.pnm_chain.specs.declared.options.ToolName.TheVariants.{Channel};
ghost use Rattle.pnm_chain.specs.StageWords.{end_fault, item_fault, meant_by, value_fault};
ghost use Rattle.pnm_chain.specs.StageWords.{Item as ItemSaid};
ghost use Rattle.pnm_chain.specs.Internal.ChainText.{IsRefusal};
ghost use Rattle.pnm_chain.specs.Internal.Settings.{AreSettingsOf, AreTaken, NowSay, argument_fault, has_option};
ghost use Rattle.pnm_chain.specs.Internal.Settings.{item_read};
ghost use Rattle.pnm_chain.specs.Internal.Settings.{said_by, value_read, with_number, with_option};

use crate::chain_text::ChainKind;
use crate::items::Item;
use crate::options::{ToolName, ToolOption};
use crate::word::{number, offset};
use pnm_image::limits::{MAX_DEPTH, MAX_TUPLE_TYPE_LENGTH};
use pnm_tools::{CutBox, FlipWay, MAX_EXTENT, Planes, Tool};
use std::alloc::Global;

/// What the words of a stage have set so far.
#[derive(Debug, Drop)]
pub(crate) struct Settings<'a> {
    tool: ToolName,
    cut: CutBox,
    tuple_type: Option<&'a [u8]>,
    across: Option<u32>,
    down: Option<u32>,
    way: Option<FlipWay>,
    /// The arguments.
    numbers: Vec<u32>,
}

impl<'a> Settings<'a> {
    /// Returns settings of the tool in which nothing is set.
    pub(crate) fn new(alloc: Global, tool: ToolName) -> Settings<'a>
        ensures { AreSettingsOf tool [] result }
    {
        Settings {
            tool,
            cut: CutBox {
                left: None,
                right: None,
                top: None,
                bottom: None,
                width: None,
                height: None,
            },
            tuple_type: None,
            across: None,
            down: None,
            way: None,
            numbers: Vec::new(alloc),
        }
    }

    /// Sets what the stage's next item says. The faults are `UnknownOption`, `Conflict`,
    /// `MissingValue` and `BadValue` for an option, `ExtraArgument` and `BadValue` for an argument,
    /// and `Memory`.
    pub(crate) fn take(&mut self, item: Item<'a>) -> Result<(), ChainKind>
        ensures set { OnOk result ((before : List ItemSaid) → AreSettingsOf self.old.tool before self.old
            → (item_fault self.old.tool before (item_read item.entry) ≡ None)
            × AreSettingsOf self.old.tool (before ++ item_read item.entry ∷ []) self.new) }
        ensures refused { IfErr result (λ kind. (before : List ItemSaid) → AreSettingsOf self.old.tool before self.old
            → IsRefusal (item_fault self.old.tool before (item_read item.entry)) kind) }
    {
        match item {
            Item::Argument(word) => self.add(word),
            Item::Given(option, value) => {
                if self.has(option) {
                    return Err(ChainKind::Conflict);
                }
                self.set(option, value)
            }
            Item::Unknown => Err(ChainKind::UnknownOption),
        }
    }

    /// Returns the tool that these settings mean. The faults are `Conflict`, `MissingArgument` and `Memory`.
    pub(crate) fn finish(&self, alloc: Global) -> Result<Tool, ChainKind>
        ensures meant { IfOk result (λ meaning. (items : List ItemSaid) → AreSettingsOf self.now.tool items self.now
            → (end_fault self.now.tool items ≡ None) × (meaning ≡ meant_by self.now.tool items)) }
        ensures refused { IfErr result (λ kind. (items : List ItemSaid) → AreSettingsOf self.now.tool items self.now
            → IsRefusal (end_fault self.now.tool items) kind) }
    {
        if self.is_conflict() {
            return Err(ChainKind::Conflict);
        }
        if self.is_missing() {
            return Err(ChainKind::MissingArgument);
        }
        self.meant(alloc)
    }

    /// Returns true if three options of an axis are set, or an argument and a scale.
    fn is_conflict(&self) -> bool
        ensures { result ≡ (tool_rule self.now.tool).conflict (said_by self.now) }
    {
        match self.tool {
            ToolName::Cut => has_three(&self.cut),
            ToolName::Enlarge => !self.numbers.is_empty() && self.has_scale(),
            _ => false,
        }
    }

    /// Returns true if the tool wants another argument, a way to flip, or a factor.
    fn is_missing(&self) -> bool
        ensures { result ≡ (tool_rule self.now.tool).missing (said_by self.now) }
    {
        match self.tool {
            ToolName::Enlarge => self.numbers.is_empty() && !self.has_scale(),
            ToolName::Flip => self.way.is_none(),
            tool => self.numbers.len() < tool.arguments().fewest,
        }
    }

    fn has_scale(&self) -> bool
        ensures { result ≡ has_scale (said_by self.now) }
    {
        self.across.is_some() || self.down.is_some()
    }

    /// Returns the tool, if nothing conflicts or is missing.
    fn meant(&self, alloc: Global) -> Result<Tool, ChainKind>
        ensures meant { IfOk result (λ meaning. AreTaken self.now.tool self.now.numbers.items
            → meaning ≡ (tool_rule self.now.tool).meant (said_by self.now)) }
        ensures refused { IfErr result (λ kind. kind ≡ Memory) }
    {
        Ok(match self.tool {
            ToolName::Invert => Tool::Invert,
            ToolName::Cut => Tool::Cut(self.cut),
            ToolName::Depth => Tool::Depth(self.number(0)),
            ToolName::Channel => Tool::Channel(self.planes(alloc)?),
            ToolName::Enlarge => Tool::Enlarge(self.factor(self.across), self.factor(self.down)),
            ToolName::Flip => Tool::Flip(self.way.unwrap_or(FlipWay::Null)),
            ToolName::Tile => Tool::Tile(self.number(0), self.number(1)),
        })
    }

    /// Returns argument `at`, counted from 0, or 0 if there is none.
    fn number(&self, at: usize) -> u32
        ensures { result ≡ slice_index_or self.now.numbers.items at 0 }
    {
        self.numbers.get(at).copied().unwrap_or(0)
    }

    /// Returns a factor. The one argument is both factors, or each factor has a scale of its own. A missing scale is 1.
    fn factor(&self, scale: Option<u32>) -> u32
        ensures { result ≡ factor_by self.now.numbers.items scale }
    {
        match self.numbers.first() {
            Some(factor) => *factor,
            None => scale.unwrap_or(1),
        }
    }

    /// Returns the arguments as planes, none above the last plane, and the tuple type.
    fn planes(&self, alloc: Global) -> Result<Planes, ChainKind>
        ensures planes { IfOk result (λ planes. AreTaken Channel self.now.numbers.items
            → planes ≡ picks self.now.numbers.items (unwrap_or (value_read self.now.tuple_type) [])) }
        ensures refused { IfErr result (λ kind. kind ≡ Memory) }
    {
        let mut planes = Vec::with_capacity(alloc, self.numbers.len())?;
        for number in &self.numbers {
            planes.push((*number).min(MAX_DEPTH - 1) as u16)?;
        }
        let tuple_type = Vec::from_slice(alloc, self.tuple_type.unwrap_or(b""))?;
        Ok(Planes::new(planes, tuple_type))
    }

    /// Returns true if the option was set.
    fn has(&self, option: ToolOption) -> bool
        ensures { result ≡ has_option (said_by self.now) option }
    {
        match option {
            ToolOption::Left => self.cut.left.is_some(),
            ToolOption::Right => self.cut.right.is_some(),
            ToolOption::Top => self.cut.top.is_some(),
            ToolOption::Bottom => self.cut.bottom.is_some(),
            ToolOption::Width => self.cut.width.is_some(),
            ToolOption::Height => self.cut.height.is_some(),
            ToolOption::TupleType => self.tuple_type.is_some(),
            ToolOption::XScale => self.across.is_some(),
            ToolOption::YScale => self.down.is_some(),
            ToolOption::Way(_) => self.way.is_some(),
        }
    }

    /// Sets an option to its value, the next word; a way to flip has none.
    fn set(&mut self, option: ToolOption, value: Option<&'a [u8]>) -> Result<(), ChainKind>
        ensures set { OnOk result ((value_fault option (value_read value.entry) ≡ None)
            × NowSay self.old (with_option (said_by self.old) option (value_read value.entry)) self.new) }
        ensures refused { IfErr result (λ kind. value_fault option (value_read value.entry) ≡ Some kind) }
    {
        let Some(word) = value else {
            return self.set_way(option);
        };
        match option {
            ToolOption::Left => set_edge(&mut self.cut.left, word),
            ToolOption::Right => set_edge(&mut self.cut.right, word),
            ToolOption::Top => set_edge(&mut self.cut.top, word),
            ToolOption::Bottom => set_edge(&mut self.cut.bottom, word),
            ToolOption::Width => set_extent(&mut self.cut.width, word),
            ToolOption::Height => set_extent(&mut self.cut.height, word),
            ToolOption::TupleType if word.len() <= MAX_TUPLE_TYPE_LENGTH => {
                self.tuple_type = value;
                Ok(())
            }
            ToolOption::XScale => set_extent(&mut self.across, word),
            ToolOption::YScale => set_extent(&mut self.down, word),
            ToolOption::TupleType | ToolOption::Way(_) => Err(ChainKind::BadValue),
        }
    }

    /// Sets the way to flip; any other option wants a value.
    fn set_way(&mut self, option: ToolOption) -> Result<(), ChainKind>
        ensures set { OnOk result ((value_fault option None ≡ None)
            × NowSay self.old (with_option (said_by self.old) option None) self.new) }
        ensures refused { IfErr result (λ kind. value_fault option None ≡ Some kind) }
    {
        let ToolOption::Way(way) = option else {
            return Err(ChainKind::MissingValue);
        };
        self.way = Some(way);
        Ok(())
    }

    /// Adds an argument.
    fn add(&mut self, word: &[u8]) -> Result<(), ChainKind>
        ensures added { OnOk result ((argument_fault self.old.tool self.old word.now ≡ None)
            × NowSay self.old (with_number (said_by self.old) (decimal_value word.now)) self.new) }
        ensures refused { IfErr result (λ kind. IsRefusal (argument_fault self.old.tool self.old word.now) kind) }
    {
        let arguments = self.tool.arguments();
        if self.numbers.len() >= arguments.most {
            return Err(ChainKind::ExtraArgument);
        }
        let number = number(word, arguments.least, arguments.greatest);
        self.numbers.push(number.ok_or(ChainKind::BadValue)?)?;
        Ok(())
    }
}

/// Sets an edge of `pamcut`.
fn set_edge(edge: &mut Option<i32>, word: &[u8]) -> Result<(), ChainKind>
    ensures set { OnOk result ((spells_offset word.now ≡ true) × (edge.new ≡ Some (offset_value word.now))) }
    ensures refused { IfErr result (λ kind. (spells_offset word.now ≡ false) × (kind ≡ BadValue)) }
{
    *edge = Some(offset(word).ok_or(ChainKind::BadValue)?);
    Ok(())
}

/// Sets a size of `pamcut`, or a scale of `pamenlarge`.
fn set_extent(extent: &mut Option<u32>, word: &[u8]) -> Result<(), ChainKind>
    ensures set { OnOk result ((spells_extent word.now ≡ true) × (extent.new ≡ Some (decimal_value word.now))) }
    ensures refused { IfErr result (λ kind. (spells_extent word.now ≡ false) × (kind ≡ BadValue)) }
{
    *extent = Some(number(word, 1, MAX_EXTENT).ok_or(ChainKind::BadValue)?);
    Ok(())
}

/// Returns true if both edges and the size of an axis are set.
fn has_three(cut: &CutBox) -> bool
    ensures { result ≡ has_three cut.now }
{
    let across = cut.left.is_some() && cut.right.is_some() && cut.width.is_some();
    let down = cut.top.is_some() && cut.bottom.is_some() && cut.height.is_some();
    across || down
}
