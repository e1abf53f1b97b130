//! The lines of one vector, from the numbers of the roots' answers.

ghost use Rattle.std.specs.Prelude.{◌≡◌, ◌++◌, ◌<◌, ◌^◌, Bool, List, None, IfOk, IsSome, OnOk, flat_map, length, slice_index, slice_index_or, if◌then◌else◌};
ghost use Rattle.std.specs.String.{string_bytes};
ghost use Rattle.net_model.specs.BitText.{bits_text};
ghost use Rattle.dict_rows.specs.AnswerTable.{answer_in};
ghost use Rattle.sim_listing.specs.LaneAnswers.{IsKnownLane, IsLaneRow, IsNumberPlace, AreLaneTexts};
ghost use Rattle.sim_listing.specs.SimText.{vector_line, faulty_line, answers_otherwise, differing_numbers, numbered_line, vector_text};

use crate::texts::{answer_text, is_written, no_texts, push_written, put_text};
use answer_numbers::AnswerNumbers;
use net_model::Answer;
use std::alloc::{AllocError, Global};

/// A lane of the block that was numbered last, and for each fault number the place of its root among the leads.
#[derive(Clone, Copy)]
pub(crate) struct LaneAnswers<'a, 'n> {
    pub(crate) numbers: &'a AnswerNumbers<'n>,
    pub(crate) places: &'a [u32],
    pub(crate) lane: u32,
}

impl LaneAnswers<'_, '_> {
    /// Appends the lines of the vector with this number. Nothing is promised about the text after an error.
    #[tactic(auto, unfolding(crate::specs::SimText::vector_text))]
    pub(crate) fn push_vector(
        &self,
        alloc: Global,
        text: &mut String,
        number: usize,
    ) -> Result<(), AllocError>
        requires { IsKnownLane self.now }
        ensures { OnOk result ((row : List (List Bool)) → IsLaneRow self.now row → string_bytes text.new ≡ string_bytes text.old ++ vector_text row number) }
    {
        let mut texts = no_texts(alloc, self.numbers.count(self.lane))?;
        self.push_vector_line(alloc, &mut texts, text, number)?;
        self.push_fault_lines(alloc, &mut texts, text)
    }

    // Appends the line of the vector itself.
    #[tactic(auto, unfolding(crate::specs::SimText::vector_line))]
    fn push_vector_line(
        &self,
        alloc: Global,
        texts: &mut Vec<Option<String>>,
        text: &mut String,
        number: usize,
    ) -> Result<(), AllocError>
        requires lane { IsKnownLane self.now }
        requires texts { AreLaneTexts self.now texts.old.items }
        ensures texts { OnOk result (AreLaneTexts self.now texts.new.items) }
        ensures text { OnOk result ((row : List (List Bool)) → IsLaneRow self.now row → string_bytes text.new ≡ string_bytes text.old ++ vector_line number (answer_in row 0)) }
    {
        write!(text, "pattern {number} answer ")?;
        self.push_answer(alloc, texts, text, 0)?;
        text.push('\n')
    }

    // Appends a line for each fault whose answer differs from the fault-free one.
    fn push_fault_lines(
        &self,
        alloc: Global,
        texts: &mut Vec<Option<String>>,
        text: &mut String,
    ) -> Result<(), AllocError>
        requires lane { IsKnownLane self.now }
        requires texts { AreLaneTexts self.now texts.old.items }
        requires few { length self.now.places.now < 2 ^ 32 }
        ensures { OnOk result ((row : List (List Bool)) → IsLaneRow self.now row → string_bytes text.new ≡ string_bytes text.old ++ flat_map (numbered_line row) (differing_numbers row)) }
    {
        for number in 1..self.places.len() as u32 {
            let differs = self.differs(number);
            self.push_if_differs(alloc, texts, text, number, differs)?;
        }
        Ok(())
    }

    // Appends the line of a fault if its answer differs.
    fn push_if_differs(
        &self,
        alloc: Global,
        texts: &mut Vec<Option<String>>,
        text: &mut String,
        number: u32,
        differs: bool,
    ) -> Result<(), AllocError>
        requires lane { IsKnownLane self.now }
        requires texts { AreLaneTexts self.now texts.old.items }
        requires number { number < length self.now.places.now }
        ensures texts { OnOk result (AreLaneTexts self.now texts.new.items) }
        ensures text { OnOk result ((row : List (List Bool)) → IsLaneRow self.now row → string_bytes text.new ≡ (if differs then string_bytes text.old ++ numbered_line row number else string_bytes text.old)) }
    {
        if differs {
            self.push_fault_line(alloc, texts, text, number)?;
        }
        Ok(())
    }

    // Appends the line of a fault.
    #[tactic(auto, unfolding(crate::specs::SimText::faulty_line))]
    fn push_fault_line(
        &self,
        alloc: Global,
        texts: &mut Vec<Option<String>>,
        text: &mut String,
        number: u32,
    ) -> Result<(), AllocError>
        requires lane { IsKnownLane self.now }
        requires texts { AreLaneTexts self.now texts.old.items }
        requires number { number < length self.now.places.now }
        ensures texts { OnOk result (AreLaneTexts self.now texts.new.items) }
        ensures text { OnOk result ((row : List (List Bool)) → IsLaneRow self.now row → string_bytes text.new ≡ string_bytes text.old ++ numbered_line row number) }
    {
        write!(text, "fault {number} ")?;
        self.push_answer(alloc, texts, text, number)?;
        text.push('\n')
    }

    // Appends the text of a number's answer.
    fn push_answer(
        &self,
        alloc: Global,
        texts: &mut Vec<Option<String>>,
        text: &mut String,
        number: u32,
    ) -> Result<(), AllocError>
        requires lane { IsKnownLane self.now }
        requires texts { AreLaneTexts self.now texts.old.items }
        requires number { number < length self.now.places.now }
        ensures texts { OnOk result (AreLaneTexts self.now texts.new.items) }
        ensures text { OnOk result ((row : List (List Bool)) → IsLaneRow self.now row → string_bytes text.new ≡ string_bytes text.old ++ bits_text (answer_in row number)) }
    {
        let place = self.place(number);
        self.write_out(alloc, texts, place, number)?;
        push_written(text, &texts[place as usize])?;
        Ok(())
    }

    // Writes the text of a number's answer at its place, if there is none yet.
    fn write_out(
        &self,
        alloc: Global,
        texts: &mut Vec<Option<String>>,
        place: u32,
        number: u32,
    ) -> Result<(), AllocError>
        requires lane { IsKnownLane self.now }
        requires texts { AreLaneTexts self.now texts.old.items }
        requires number { number < length self.now.places.now }
        requires place { IsNumberPlace self.now number place }
        requires inside { place < length texts.old.items }
        ensures texts { OnOk result (AreLaneTexts self.now texts.new.items) }
        ensures written { OnOk result (IsSome (slice_index_or texts.new.items place None)) }
    {
        if !is_written(texts.as_slice(), place) {
            self.fill(alloc, texts, place, number)?;
        }
        Ok(())
    }

    // Writes the text of a number's answer at its place.
    fn fill(
        &self,
        alloc: Global,
        texts: &mut Vec<Option<String>>,
        place: u32,
        number: u32,
    ) -> Result<(), AllocError>
        requires lane { IsKnownLane self.now }
        requires texts { AreLaneTexts self.now texts.old.items }
        requires number { number < length self.now.places.now }
        requires place { IsNumberPlace self.now number place }
        requires inside { place < length texts.old.items }
        ensures texts { OnOk result (AreLaneTexts self.now texts.new.items) }
        ensures written { OnOk result (IsSome (slice_index_or texts.new.items place None)) }
    {
        let answer = self.answer(alloc, number)?;
        let own = answer_text(alloc, &answer)?;
        put_text(texts, place, own);
        Ok(())
    }

    // Returns the place of the lead that the number is equal to.
    fn lead(&self, number: u32) -> usize
        requires { number < length self.now.places.now }
        ensures { result ≡ slice_index self.now.places.now number }
    {
        self.places[number as usize] as usize
    }

    // Returns the place of the number's answer among the different ones.
    fn place(&self, number: u32) -> u32
        requires lane { IsKnownLane self.now }
        requires number { number < length self.now.places.now }
        ensures { IsNumberPlace self.now number result }
    {
        self.numbers.number(self.lane, self.lead(number))
    }

    fn answer(&self, alloc: Global, number: u32) -> Result<Answer, AllocError>
        requires lane { IsKnownLane self.now }
        requires number { number < length self.now.places.now }
        ensures { IfOk result (λ answer. (row : List (List Bool)) → IsLaneRow self.now row → answer ≡ answer_in row number) }
    {
        let own = self.numbers.answer(alloc, self.lane, self.lead(number))?;
        Ok(own)
    }

    // Returns whether the number's answer differs from that of number 0.
    fn differs(&self, number: u32) -> bool
        requires lane { IsKnownLane self.now }
        requires number { number < length self.now.places.now }
        ensures { (row : List (List Bool)) → IsLaneRow self.now row → result ≡ answers_otherwise row number }
    {
        let own = self.place(number);
        let free = self.place(0);
        own != free
    }
}
